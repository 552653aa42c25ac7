// The gradient of the action by the squared lengths.
ghost use Rattle.std.specs.Prelude.{◌≡◌, ◌≤◌, length};
ghost use Rattle.std.specs.Float.{nan};
ghost use Rattle.floats.specs.Ops.{◌⊕◌};
ghost use Rattle.lists.specs.Lists.{gather, upto};
ghost use Rattle.lists.specs.Loops.{scatter};
ghost use Rattle.complex.specs.Lent.{lists_of};
ghost use Rattle.hinges.specs.Hinges.{faces_of};
ghost use Rattle.hinges.specs.Action.{contributions};
ghost use Rattle.calls.specs.Calls.{lengths_check_of, built_check_of, room_check_of};
ghost use Rattle.lorentzian_regge.specs.Answers.{short_gradient, Graded};

use calls::{BuiltComplex, check_complex, check_lengths, check_room};
use complex::Complex;
use hinges::{add_contributions, tri_sq_lengths};
use incidence::{TriangleNumber, tri_edge_indices};
use one_pass::write_table;
use refusals::Refusal;

// What all triangles add, in their order.
fn add_all_contributions(
    built: &BuiltComplex<'_>,
    sq_lengths: &[f64],
    deficits: &[f64],
    grad: &mut [f64],
)
    requires { (length sq_lengths.now ≡ built.now.complex.counts.edges)
        × (built.now.complex.counts.triangles ≤ length deficits.now) × (built.now.complex.counts.edges ≤ length grad.old) }
    ensures { grad.new ≡ scatter nan ◌⊕◌ (gather (contributions (faces_of built.now.complex) sq_lengths.now deficits.now) (upto built.now.complex.counts.triangles)) grad.old }
{
    for t in 0..built.complex.counts.triangles as u32 {
        let own = tri_edge_indices(&built.complex, &built.incidence, TriangleNumber(t));
        let s = tri_sq_lengths(own, sq_lengths);
        add_contributions(own, s, deficits[t as usize], grad);
    }
}

// `lorentzian_regge_action_grad` of a built complex. A refused call leaves the list as it was; otherwise the places that are not
// written are kept. Kinds as bytes, and unread: `write_table` fills the lists that C lends.
// Not inlined, so that its lists do not lie on the stack while a caller checks the complex.
#[inline(never)]
pub fn lorentzian_regge_action_grad_built(
    built: &BuiltComplex<'_>,
    sq_lengths: &[f64],
    grad: &mut [f64],
) -> Result<(), Refusal>
    ensures { Graded (lengths_check_of built.now.complex.counts (length sq_lengths.now) (room_check_of (short_gradient built.now.complex.counts (length grad.old))))
        (faces_of built.now.complex) sq_lengths.now grad.old result grad.new }
{
    let counts = built.complex.counts;
    check_lengths(counts, sq_lengths.len())?;
    check_room(grad.len() < counts.edges)?;
    let mut deficits = [0.0; 81920];
    let mut kinds = [0u8; 81920];
    write_table(
        &built.complex,
        &built.incidence,
        sq_lengths,
        &mut deficits,
        &mut kinds,
    );
    let entries = &mut grad[..counts.edges];
    entries.fill(0.0);
    add_all_contributions(built, sq_lengths, &deficits, entries);
    Ok(())
}

// `lorentzian_regge_action_grad`: the derivative of the action by the squared length of each edge. A refused call leaves the list
// as it was; otherwise the places that are not written are kept.
pub fn lorentzian_regge_action_grad(
    complex: &Complex<'_>,
    sq_lengths: &[f64],
    grad: &mut [f64],
) -> Result<(), Refusal>
    ensures { Graded (built_check_of complex.now.counts (lists_of complex.now)
        (lengths_check_of complex.now.counts (length sq_lengths.now) (room_check_of (short_gradient complex.now.counts (length grad.old)))))
        (faces_of complex.now) sq_lengths.now grad.old result grad.new }
{
    let mut pent_edges = [0u32; 81920];
    let mut pent_tris = [0u32; 81920];
    let built = check_complex(*complex, &mut pent_edges, &mut pent_tris)?;
    lorentzian_regge_action_grad_built(&built, sq_lengths, grad)
}
