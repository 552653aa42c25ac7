// Which sizes are lawful.
ghost use Rattle.std.specs.Prelude.{◌≡◌};
ghost use Rattle.foliation.specs.Lattice.{is_lawful};
ghost use Rattle.foliation.specs.Listing.{Checked};

use crate::{Lattice, LawfulLattice};
use refusals::Refusal;

// Whether n_t and n_s are in 2..8 and there are at most 341 cells.
#[tactic(auto, unfolding(crate::specs::Lattice::is_lawful))]
pub fn is_lawful(lattice: Lattice) -> bool
    ensures { result ≡ is_lawful lattice }
{
    let n_t = lattice.n_t;
    let n_s = lattice.n_s;
    2 <= n_t && n_t <= 8 && 2 <= n_s && n_s <= 8 && n_t * (n_s * (n_s * n_s)) <= 341
}

impl LawfulLattice {
    // The lattice, where its size is lawful.
    pub fn new(lattice: Lattice) -> Result<LawfulLattice, Refusal>
        ensures { Checked lattice result }
    {
        if !is_lawful(lattice) {
            return Err(Refusal::LatticeSize);
        }
        Ok(LawfulLattice { lattice })
    }
}
