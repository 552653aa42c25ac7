// The triangles that a retouch works out anew, and the check of its edge.
ghost use Rattle.std.specs.Prelude.{◌≡◌, ◌≤◌, ◌<◌, length};
ghost use Rattle.refusals.specs.Refusals.{Done};
ghost use Rattle.lists.specs.Rows.{over};
ghost use Rattle.complex.specs.Lent.{pents_of, edges_of, triangles_of, IsHolding};
ghost use Rattle.incidence.specs.Incidence.{HasTriangleNumbers};
ghost use Rattle.marks.specs.Marks.{marked};
ghost use Rattle.hinges.specs.Hinges.{faces_of};
ghost use Rattle.hinges.specs.Parts.{Found};
ghost use Rattle.retouch.specs.Retouch.{edge_check_of, around, touched};

use complex::{Complex, Counts, Incidence};
use incidence::{EdgeNumber, PentachoronNumber, pent_tri_indices, pents_of_edge};
use marks::{count_marked, list_marked, mark_all};
use refusals::Refusal;

// 9 where there is no edge of that number.
#[tactic(auto, unfolding(crate::specs::Retouch::edge_check_of))]
pub fn check_edge(counts: Counts, edge: EdgeNumber) -> Result<(), Refusal>
    ensures { result ≡ edge_check_of counts edge.0 Done }
{
    if edge.0 as usize >= counts.edges {
        return Err(Refusal::EdgeTooLarge);
    }
    Ok(())
}

// Marks the triangles of each pentachoron that contains an edge.
fn mark_touched<'a>(
    complex: &Complex<'a>,
    incidence: &Incidence<'a>,
    edge: EdgeNumber,
    marks: &mut [bool],
)
    requires { (IsHolding (pents_of complex.now) (edges_of complex.now) complex.now.edge_to_pents)
        × HasTriangleNumbers complex.now incidence.now
        × Found (triangles_of complex.now) 3 (pents_of complex.now)
        × (edge.0 < complex.now.counts.edges) × (complex.now.counts.triangles ≤ length marks.old) }
    ensures { marks.new ≡ marked (around (faces_of complex.now) edge.0) marks.old }
{
    let holders = pents_of_edge(complex, edge);
    for &holder in holders {
        let tris = pent_tri_indices(complex, incidence, PentachoronNumber(holder));
        mark_all(tris, marks);
    }
}

// Writes the numbers of those triangles, each once, ascending, by marks of T triangles; answers how many there are. A count and not the
// lent front: a list that is lent on has no value after the call, and nothing would be promised of the places behind the front. Not
// inlined, so that marks of one size alone lie on the stack.
#[inline(never)]
fn list_touched_in<'a, const T: usize>(
    complex: &Complex<'a>,
    incidence: &Incidence<'a>,
    edge: EdgeNumber,
    tris: &mut [u32],
) -> usize
    requires { (IsHolding (pents_of complex.now) (edges_of complex.now) complex.now.edge_to_pents)
        × HasTriangleNumbers complex.now incidence.now
        × Found (triangles_of complex.now) 3 (pents_of complex.now)
        × (edge.0 < complex.now.counts.edges) × (complex.now.counts.triangles ≤ T) × (T ≤ 81920) × (complex.now.counts.triangles ≤ length tris.old) }
    ensures { (result ≡ length (touched (faces_of complex.now) edge.0))
        × (tris.new ≡ over (touched (faces_of complex.now) edge.0) tris.old) }
{
    let mut marks = [false; T];
    mark_touched(complex, incidence, edge, &mut marks);
    let own = &marks[..complex.counts.triangles];
    list_marked(own, tris);
    count_marked(own)
}

// The same by marks of the smaller of two sizes where it suffices: to clear 81,920 takes longer than to mark a few.
pub fn list_touched<'a>(
    complex: &Complex<'a>,
    incidence: &Incidence<'a>,
    edge: EdgeNumber,
    tris: &mut [u32],
) -> usize
    requires { (IsHolding (pents_of complex.now) (edges_of complex.now) complex.now.edge_to_pents)
        × HasTriangleNumbers complex.now incidence.now
        × Found (triangles_of complex.now) 3 (pents_of complex.now)
        × (edge.0 < complex.now.counts.edges) × (complex.now.counts.triangles ≤ 81920) × (complex.now.counts.triangles ≤ length tris.old) }
    ensures { (result ≡ length (touched (faces_of complex.now) edge.0))
        × (tris.new ≡ over (touched (faces_of complex.now) edge.0) tris.old) }
{
    if complex.counts.triangles <= 16384 {
        return list_touched_in::<16384>(complex, incidence, edge, tris);
    }
    list_touched_in::<81920>(complex, incidence, edge, tris)
}
