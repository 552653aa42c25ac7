// The gradient's entries at free edges.
ghost use Rattle.std.specs.Prelude.{◌≡◌, map, ◌≤◌, ltb, length, get_or};
ghost use Rattle.std.specs.Float.{nan};
ghost use Rattle.floats.specs.Ops.{◌⊕◌};
ghost use Rattle.lists.specs.Lists.{gather};
ghost use Rattle.lists.specs.Rows.{over};
ghost use Rattle.lists.specs.Groups.{Below};
ghost use Rattle.lists.specs.Loops.{scatter};
ghost use Rattle.complex.specs.Lent.{lists_of};
ghost use Rattle.marks.specs.Marks.{marked_below};
ghost use Rattle.hinges.specs.Hinges.{faces_of, hinges, deficits_of};
ghost use Rattle.hinges.specs.Action.{contributions};
ghost use Rattle.hinges.specs.Local.{local_gradient};
ghost use Rattle.calls.specs.Calls.{lengths_check_of, free_check_of, built_check_of, room_check_of};
ghost use Rattle.local_regge.specs.LocalCalls.{LocallyGraded};

use calls::{BuiltComplex, check_complex, check_free, check_lengths, check_room};
use complex::Complex;
use hinges::{add_contributions, hinge_at, tri_sq_lengths};
use incidence::{TriangleNumber, tri_edge_indices};
use marks::{mark_tris, next_marked};
use refusals::Refusal;

// What the marked triangles add at their edges, in their order.
fn add_marked_contributions(
    built: &BuiltComplex<'_>,
    sq_lengths: &[f64],
    marks: &[bool],
    entries: &mut [f64],
)
    requires { (length sq_lengths.now ≡ built.now.complex.counts.edges)
        × (built.now.complex.counts.triangles ≤ length marks.now) × (built.now.complex.counts.edges ≤ length entries.old) }
    ensures { entries.new ≡ scatter nan ◌⊕◌ (gather (contributions (faces_of built.now.complex) sq_lengths.now (deficits_of (hinges (faces_of built.now.complex) sq_lengths.now))) (marked_below built.now.complex.counts.triangles marks.now)) entries.old }
{
    let front = &marks[..built.complex.counts.triangles];
    let mut t = next_marked(front, 0);
    while t < front.len() {
        let tri = TriangleNumber(t as u32);
        let own = tri_edge_indices(&built.complex, &built.incidence, tri);
        let s = tri_sq_lengths(own, sq_lengths);
        let hinge = hinge_at(&built.complex, &built.incidence, sq_lengths, tri);
        add_contributions(own, s, hinge.deficit, entries);
        t = next_marked(front, t + 1);
    }
}

// Writes the entries of free edges, in the order of the list. By the index: through `iter_mut` the free edges would be read by the
// index instead, and of what is written through a zip with it a proof knows no element.
fn write_entries(free_edges: &[u32], entries: &[f64], grad: &mut [f64])
    requires { Below free_edges.now (length entries.now) × (length free_edges.now ≤ length grad.old) }
    ensures { grad.new ≡ over (map (λ e. get_or entries.now e nan) free_edges.now) grad.old }
{
    for (k, e) in free_edges.iter().enumerate() {
        grad[k] = entries[*e as usize];
    }
}

// Writes the entries of free edges, worked out in marks of T triangles and sums of E edges. Not inlined, so that marks and sums of one
// size alone lie on the stack, and none while a caller checks the complex.
#[inline(never)]
fn write_gradient_in<const T: usize, const E: usize>(
    built: &BuiltComplex<'_>,
    sq_lengths: &[f64],
    free_edges: &[u32],
    grad: &mut [f64],
)
    requires { (length sq_lengths.now ≡ built.now.complex.counts.edges) × Below free_edges.now built.now.complex.counts.edges
        × (built.now.complex.counts.triangles ≤ T) × (T ≤ 81920) × (built.now.complex.counts.edges ≤ E) × (E ≤ 81920) × (length free_edges.now ≤ length grad.old) }
    ensures { grad.new ≡ over (local_gradient (faces_of built.now.complex) sq_lengths.now free_edges.now) grad.old }
{
    let mut marks = [false; T];
    mark_tris(&built.complex, free_edges, &mut marks);
    let mut entries = [0.0; E];
    add_marked_contributions(built, sq_lengths, &marks, &mut entries);
    write_entries(free_edges, &entries, grad);
}

// The same in marks and sums of the smaller of two sizes where they suffice: to clear 81,920 of each takes as long as many hinges.
fn write_gradient(
    built: &BuiltComplex<'_>,
    sq_lengths: &[f64],
    free_edges: &[u32],
    grad: &mut [f64],
)
    requires { (length sq_lengths.now ≡ built.now.complex.counts.edges) × Below free_edges.now built.now.complex.counts.edges
        × (length free_edges.now ≤ length grad.old) }
    ensures { grad.new ≡ over (local_gradient (faces_of built.now.complex) sq_lengths.now free_edges.now) grad.old }
{
    let counts = built.complex.counts;
    if counts.triangles <= 16384 && counts.edges <= 8192 {
        return write_gradient_in::<16384, 8192>(built, sq_lengths, free_edges, grad);
    }
    write_gradient_in::<81920, 81920>(built, sq_lengths, free_edges, grad);
}

// `local_lorentzian_regge_action_grad` of a built complex. A refused call leaves the list as it was; otherwise the places that are
// not written are kept.
pub fn local_lorentzian_regge_action_grad_built(
    built: &BuiltComplex<'_>,
    sq_lengths: &[f64],
    free_edges: &[u32],
    grad: &mut [f64],
) -> Result<(), Refusal>
    ensures { LocallyGraded (lengths_check_of built.now.complex.counts (length sq_lengths.now) (free_check_of built.now.complex.counts free_edges.now (room_check_of (ltb (length grad.old) (length free_edges.now)))))
        (faces_of built.now.complex) sq_lengths.now free_edges.now grad.old result grad.new }
{
    let counts = built.complex.counts;
    check_lengths(counts, sq_lengths.len())?;
    check_free(counts, free_edges)?;
    check_room(grad.len() < free_edges.len())?;
    write_gradient(built, sq_lengths, free_edges, grad);
    Ok(())
}

// `local_lorentzian_regge_action_grad`: the gradient's entry at each free edge, in the order of the list. A refused call leaves the
// list as it was; otherwise the places that are not written are kept.
pub fn local_lorentzian_regge_action_grad(
    complex: &Complex<'_>,
    sq_lengths: &[f64],
    free_edges: &[u32],
    grad: &mut [f64],
) -> Result<(), Refusal>
    ensures { LocallyGraded (built_check_of complex.now.counts (lists_of complex.now)
        (lengths_check_of complex.now.counts (length sq_lengths.now) (free_check_of complex.now.counts free_edges.now (room_check_of (ltb (length grad.old) (length free_edges.now))))))
        (faces_of complex.now) sq_lengths.now free_edges.now grad.old result grad.new }
{
    let mut pent_edges = [0u32; 81920];
    let mut pent_tris = [0u32; 81920];
    let built = check_complex(*complex, &mut pent_edges, &mut pent_tris)?;
    local_lorentzian_regge_action_grad_built(&built, sq_lengths, free_edges, grad)
}
