// A complex that is known to be built.
ghost use Rattle.std.specs.Prelude.{◌≡◌, ◌≤◌, length, IfOk};
ghost use Rattle.refusals.specs.Refusals.{Done};
ghost use Rattle.complex.specs.Lent.{lists_of};
ghost use Rattle.calls.specs.Calls.{BuiltWith, built_check_of, outcome_of};

use comparison::is_built_noting;
use complex::{Complex, Incidence};
use refusals::Refusal;

// A built complex with the numbers of its pentachorons' edges and triangles. A function whose name ends in `_built` takes one, and
// does not check it again.
#[derive(Clone, Copy)]
pub struct BuiltComplex<'a> {
    pub complex: Complex<'a>,
    pub incidence: Incidence<'a>,
    ghost built_with: { BuiltWith complex.counts (lists_of complex) incidence.pent_edges.now incidence.pent_tris.now },
}

// A built complex with the numbers of its pentachorons' edges and triangles, or 7. Each call over a complex begins with it, and lends
// the two lists for the numbers: memory is fixed. No function lends them and calls a closure with the built complex: the proof of a call
// doesn't close with it, since of what the closure leaves in the lists that it borrows nothing is known.
#[tactic(auto, unfolding(crate::specs::Calls::built_check_of))]
pub fn check_complex<'a>(
    complex: Complex<'a>,
    pent_edges: &'a mut [u32],
    pent_tris: &'a mut [u32],
) -> Result<BuiltComplex<'a>, Refusal>
    requires { (81920 ≤ length pent_edges.old) × (81920 ≤ length pent_tris.old) }
    ensures outcome { outcome_of result ≡ built_check_of complex.entry.counts (lists_of complex.entry) Done }
    ensures own { IfOk result (λ b. b.complex ≡ complex.entry) }
{
    if !is_built_noting(&complex, pent_edges, pent_tris) {
        return Err(Refusal::NotBuilt);
    }
    Ok(BuiltComplex {
        complex,
        incidence: Incidence {
            pent_edges,
            pent_tris,
        },
    })
}
