// The edges of a lattice's complex: their types, and their flat squared lengths.
#![tactic(auto)]

mod checks;
mod edges;

ghost use Rattle.complex.specs.Lent.{edges_of, lists_of};
ghost use Rattle.lattice_edges.specs.Edges.{types_of, lengths_of};
ghost use Rattle.lattice_edges.specs.OnLattice.{Filled, FillsEntries};

use complex::Complex;
pub use edges::EdgeType;
use edges::{edge_type, sq_length, write_entries};
use foliation::{Lattice, LawfulLattice};
use refusals::Refusal;

// What is made of the two vertices of each edge of a lattice's complex goes to the front of a list. A refused call leaves the list as
// it was; otherwise the places that are not written are kept.
fn fill<T: Copy, F: Fn(LawfulLattice, u32, u32) -> T>(
    lattice: Lattice,
    complex: &Complex<'_>,
    list: &mut [T],
    entry: F,
) -> Result<(), Refusal>
    requires { F.IsAlwaysCallable entry }
    ensures { FillsEntries (F.post entry) lattice complex.now.counts (lists_of complex.now) (edges_of complex.now) list.old result list.new }
{
    let lawful = checks::check(lattice, complex, list.len())?;
    write_entries(
        lawful,
        &complex.edges[..2 * complex.counts.edges],
        list,
        entry,
    );
    Ok(())
}

// The type of each edge of a lattice's complex, a byte per edge, as C lends them. A refused call leaves the list as it was; otherwise
// the places that are not written are kept.
pub fn edge_types(lattice: Lattice, complex: &Complex<'_>, types: &mut [u8]) -> Result<(), Refusal>
    ensures { Filled lattice complex.now.counts (lists_of complex.now) (types_of lattice (edges_of complex.now)) types.old result types.new }
{
    fill(
        lattice,
        complex,
        types,
        |lawful, a, b| edge_type(lawful, a, b).byte(),
    )
}

// `flat_minkowski_sq_lengths`: the signed squared length of each edge of a lattice's complex, with any spacing and any time step. A
// refused call leaves the list as it was; otherwise the places that are not written are kept.
pub fn flat_minkowski_sq_lengths(
    lattice: Lattice,
    complex: &Complex<'_>,
    spacing: f64,
    dt: f64,
    sq_lengths: &mut [f64],
) -> Result<(), Refusal>
    ensures { Filled lattice complex.now.counts (lists_of complex.now) (lengths_of lattice (edges_of complex.now) spacing dt) sq_lengths.old result sq_lengths.new }
{
    fill(
        lattice,
        complex,
        sq_lengths,
        |lawful, a, b| sq_length(lawful, a, b, spacing, dt),
    )
}
