// What is refused: sizes that are not lawful, and complexes that are not a lattice's.
ghost use Rattle.std.specs.Prelude.{◌≡◌, ◌&&◌};
ghost use Rattle.complex.specs.Check.{is_built};
ghost use Rattle.complex.specs.Lent.{lists_of};
ghost use Rattle.lattice_edges.specs.OnLattice.{has_lattice_pents, Checked};

use comparison::is_built;
use complex::Complex;
use foliation::{Lattice, LawfulLattice, list};
use refusals::Refusal;

// Whether vertex count and pentachorons are those of the lattice.
fn has_pents(lawful: LawfulLattice, complex: &Complex<'_>) -> bool
    ensures { result ≡ has_lattice_pents lawful.lattice complex.now.counts complex.now.pents.now }
{
    let counts = complex.counts;
    if counts.vertices != lawful.n_total() {
        return false;
    }
    let mut own = [0u32; 40920];
    let count = list(lawful, &mut own);
    counts.pentachorons == count && complex.pents.starts_with(&own[..5 * count])
}

// Whether a complex is built, and the lattice's own.
fn has_complex(lawful: LawfulLattice, complex: &Complex<'_>) -> bool
    ensures { result ≡ (has_lattice_pents lawful.lattice complex.now.counts complex.now.pents.now && is_built complex.now.counts (lists_of complex.now)) }
{
    has_pents(lawful, complex) && is_built(complex)
}

// The lattice, where a list with so many places has one for each edge of the lattice's complex.
pub fn check(lattice: Lattice, complex: &Complex<'_>, room: usize) -> Result<LawfulLattice, Refusal>
    ensures { Checked lattice complex.now.counts (lists_of complex.now) room result }
{
    let lawful = LawfulLattice::new(lattice)?;
    if !has_complex(lawful, complex) {
        return Err(Refusal::NotBuilt);
    }
    if room < complex.counts.edges {
        return Err(Refusal::ShortRoom);
    }
    Ok(lawful)
}
