// The action of a complex.
ghost use Rattle.std.specs.Prelude.{◌≡◌, ◌≤◌, length};
ghost use Rattle.refusals.specs.Refusals.{Done, answer_by};
ghost use Rattle.complex.specs.Lent.{lists_of};
ghost use Rattle.hinges.specs.Hinges.{faces_of};
ghost use Rattle.hinges.specs.Action.{action_of, action};
ghost use Rattle.calls.specs.Calls.{lengths_check_of, built_check_of};

use calls::{BuiltComplex, check_complex, check_lengths};
use complex::Complex;
use hinges::{abs_area, tri_sq_lengths};
use incidence::{TriangleNumber, tri_edge_indices};
use one_pass::write_table;
use refusals::Refusal;

// The sum of all areas, each times its deficit.
fn sum_up(built: &BuiltComplex<'_>, sq_lengths: &[f64], deficits: &[f64]) -> f64
    requires { (length sq_lengths.now ≡ built.now.complex.counts.edges) × (built.now.complex.counts.triangles ≤ length deficits.now) }
    ensures { result ≡ action_of (faces_of built.now.complex) sq_lengths.now deficits.now }
{
    let mut action = 0.0;
    for t in 0..built.complex.counts.triangles as u32 {
        let own = tri_edge_indices(&built.complex, &built.incidence, TriangleNumber(t));
        let area = abs_area(tri_sq_lengths(own, sq_lengths));
        action += area * deficits[t as usize];
    }
    action
}

// `lorentzian_regge_action` of a built complex. Kinds as bytes, and unread: `write_table` fills the lists that C lends.
// Not inlined, so that its lists do not lie on the stack while a caller checks the complex.
#[inline(never)]
pub fn lorentzian_regge_action_built(
    built: &BuiltComplex<'_>,
    sq_lengths: &[f64],
) -> Result<f64, Refusal>
    ensures { result ≡ answer_by (lengths_check_of built.now.complex.counts (length sq_lengths.now) Done)
        (action (faces_of built.now.complex) sq_lengths.now) }
{
    check_lengths(built.complex.counts, sq_lengths.len())?;
    let mut deficits = [0.0; 81920];
    let mut kinds = [0u8; 81920];
    write_table(
        &built.complex,
        &built.incidence,
        sq_lengths,
        &mut deficits,
        &mut kinds,
    );
    Ok(sum_up(built, sq_lengths, &deficits))
}

// `lorentzian_regge_action`: the sum of all areas, each times its deficit; no triangle is skipped.
pub fn lorentzian_regge_action(complex: &Complex<'_>, sq_lengths: &[f64]) -> Result<f64, Refusal>
    ensures { result ≡ answer_by (built_check_of complex.now.counts (lists_of complex.now)
        (lengths_check_of complex.now.counts (length sq_lengths.now) Done))
        (action (faces_of complex.now) sq_lengths.now) }
{
    let mut pent_edges = [0u32; 81920];
    let mut pent_tris = [0u32; 81920];
    let built = check_complex(*complex, &mut pent_edges, &mut pent_tris)?;
    lorentzian_regge_action_built(&built, sq_lengths)
}
