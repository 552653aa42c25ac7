// The periodic lattice of a foliation: its pentachorons.
#![tactic(auto)]

mod checks;
mod coords;
mod hypercubic;

ghost use Rattle.foliation.specs.Listing.{ListsPents};

pub use checks::is_lawful;
pub use coords::{Coords, LawfulLattice};
pub use hypercubic::list;
use refusals::Refusal;

// A lattice of n_t time steps and n_s points along each axis of space, periodic along all four axes.
#[derive(Clone, Copy)]
pub struct Lattice {
    pub n_t: usize,
    pub n_s: usize,
}

// The pentachorons of `foliated_hypercubic`, each sorted, in the order of the loops z, y, x, t and of `permute`, the first of equals
// kept. A refused call leaves the list as it was; otherwise the places that are not written are kept.
pub fn foliated_hypercubic(lattice: Lattice, pents: &mut [u32]) -> Result<usize, Refusal>
    ensures { ListsPents lattice pents.old result pents.new }
{
    let lawful = LawfulLattice::new(lattice)?;
    if pents.len() < 120 * lawful.n_total() {
        return Err(Refusal::ShortRoom);
    }
    Ok(hypercubic::list(lawful, pents))
}
