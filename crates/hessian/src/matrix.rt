// The local Hessian as a matrix: what the pentachorons and triangles on free edges add, in their order.
// The free edges stand beside their matrix, as many as it has rows: a struct of both has the matrix as a struct in a struct, and the
// proof of what the lent list holds in the end didn't close.
ghost use Rattle.std.specs.Prelude.{◌≡◌, ◌*◌, ◌≤◌, ◌<◌, length};
ghost use Rattle.std.specs.Float.{nan};
ghost use Rattle.floats.specs.Ops.{◌⊕◌};
ghost use Rattle.lists.specs.Lists.{gather, Once};
ghost use Rattle.lists.specs.Rows.{over};
ghost use Rattle.lists.specs.Groups.{Below};
ghost use Rattle.lists.specs.Loops.{scatter};
ghost use Rattle.complex.specs.Lent.{pents_of, edges_of, triangles_of, IsHolding};
ghost use Rattle.marks.specs.Marks.{marked_below};
ghost use Rattle.hinges.specs.Hinges.{faces_of};
ghost use Rattle.hinges.specs.Local.{local_triangles, local_pents};
ghost use Rattle.hinges.specs.Parts.{IsMeasured};
ghost use Rattle.second_derivatives.specs.Parts.{before};
ghost use Rattle.second_derivatives.specs.Matrix.{Scattered};
ghost use Rattle.hessian.specs.Hessian.{local_hessian};
ghost use Rattle.hessian.specs.Parts.{diagonal_at, first_at, second_at};
ghost use Rattle.hessian.specs.Steps.{ahead, diagonal_events, diagonal_of};

use complex::{Complex, Incidence};
use hinges::{hinge_at, pent_sq_lengths, tri_sq_lengths};
use incidence::{PentachoronNumber, TriangleNumber, pent_edge_indices, tri_edge_indices};
use marks::{mark_pents, mark_tris, next_marked};
use second_derivatives::{SquareMatrix, add_first, add_second, places_in};

// ---- what both terms go over

// A built complex with the numbers of its pentachorons' edges and triangles, and a length for each edge. `∥ ∥₁`, since a field holds
// a bare fact, and to stand in a list is none: an element may stand there twice.
#[derive(Clone, Copy)]
struct Measured<'a> {
    complex: Complex<'a>,
    incidence: Incidence<'a>,
    sq_lengths: &'a [f64],
    ghost measured: { ∥ IsMeasured complex incidence (length sq_lengths.now) ∥₁ },
}

// ---- the second term

// What a pentachoron adds.
fn add_pent<'a>(
    built: &Measured<'a>,
    free_edges: &'a [u32],
    fd_eps: f64,
    pent: PentachoronNumber,
    matrix: &mut SquareMatrix<'_>,
)
    requires { (pent.0 < built.now.complex.counts.pentachorons) × (matrix.old.n ≡ length free_edges.now) }
    ensures { Scattered ◌⊕◌ (second_at (faces_of built.now.complex) built.now.sq_lengths.now free_edges.now fd_eps pent.0) matrix.old matrix.new }
{
    let own = pent_edge_indices(&built.complex, &built.incidence, pent);
    let s = pent_sq_lengths(own, built.sq_lengths);
    let at = places_in(free_edges, own);
    add_second(&at, &s, fd_eps, matrix);
}

// What all marked pentachorons add, in their order. `add_tris` goes over its marks by a loop of its own: one function for both, or an
// iterator over marks, would need a law of what a closure's calls leave in the matrix, and of triangles in the diagonal, for seven lines.
fn add_pents<'a>(
    built: &Measured<'a>,
    free_edges: &'a [u32],
    marks: &[bool],
    fd_eps: f64,
    matrix: &mut SquareMatrix<'_>,
)
    requires { (built.now.complex.counts.pentachorons ≤ length marks.now) × (matrix.old.n ≡ length free_edges.now) }
    ensures { Scattered ◌⊕◌ (gather (second_at (faces_of built.now.complex) built.now.sq_lengths.now free_edges.now fd_eps) (marked_below built.now.complex.counts.pentachorons marks.now)) matrix.old matrix.new }
{
    let front = &marks[..built.complex.counts.pentachorons];
    let mut p = next_marked(front, 0);
    while p < front.len() {
        let pent = PentachoronNumber(p as u32);
        add_pent(built, free_edges, fd_eps, pent, matrix);
        p = next_marked(front, p + 1);
    }
}

// What all pentachorons on free edges add.
fn add_second_term<'a>(
    built: &Measured<'a>,
    free_edges: &'a [u32],
    fd_eps: f64,
    matrix: &mut SquareMatrix<'_>,
)
    requires { (IsHolding (pents_of built.now.complex) (edges_of built.now.complex) built.now.complex.edge_to_pents)
        × Below free_edges.now built.now.complex.counts.edges × (matrix.old.n ≡ length free_edges.now) }
    ensures { Scattered ◌⊕◌ (gather (second_at (faces_of built.now.complex) built.now.sq_lengths.now free_edges.now fd_eps) (local_pents (faces_of built.now.complex) free_edges.now)) matrix.old matrix.new }
{
    let mut marks = [false; 8192];
    mark_pents(&built.complex, free_edges, &mut marks);
    add_pents(built, free_edges, &marks, fd_eps, matrix);
}

// ---- the first term

// What a triangle adds.
fn add_tri<'a>(
    built: &Measured<'a>,
    free_edges: &'a [u32],
    tri: TriangleNumber,
    diagonal: &mut [f64],
    matrix: &mut SquareMatrix<'_>,
)
    requires { (tri.0 < built.now.complex.counts.triangles) × (built.now.complex.counts.edges ≤ length diagonal.old) × (matrix.old.n ≡ length free_edges.now) }
    ensures diagonal { diagonal.new ≡ scatter nan ◌⊕◌ (diagonal_at (faces_of built.now.complex) built.now.sq_lengths.now tri.0) diagonal.old }
    ensures others { Scattered before (first_at (faces_of built.now.complex) built.now.sq_lengths.now free_edges.now tri.0) matrix.old matrix.new }
{
    let own = tri_edge_indices(&built.complex, &built.incidence, tri);
    let hinge = hinge_at(&built.complex, &built.incidence, built.sq_lengths, tri);
    let s = tri_sq_lengths(own, built.sq_lengths);
    let at = places_in(free_edges, &own.numbers());
    add_first(at, own, s, hinge.deficit, diagonal, matrix);
}

// What all marked triangles add, in their order.
fn add_tris<'a>(
    built: &Measured<'a>,
    free_edges: &'a [u32],
    marks: &[bool],
    diagonal: &mut [f64],
    matrix: &mut SquareMatrix<'_>,
)
    requires { (built.now.complex.counts.triangles ≤ length marks.now) × (built.now.complex.counts.edges ≤ length diagonal.old) × (matrix.old.n ≡ length free_edges.now) }
    ensures diagonal { diagonal.new ≡ scatter nan ◌⊕◌ (gather (diagonal_at (faces_of built.now.complex) built.now.sq_lengths.now) (marked_below built.now.complex.counts.triangles marks.now)) diagonal.old }
    ensures others { Scattered before (gather (first_at (faces_of built.now.complex) built.now.sq_lengths.now free_edges.now) (marked_below built.now.complex.counts.triangles marks.now)) matrix.old matrix.new }
{
    let front = &marks[..built.complex.counts.triangles];
    let mut t = next_marked(front, 0);
    while t < front.len() {
        let tri = TriangleNumber(t as u32);
        add_tri(built, free_edges, tri, diagonal, matrix);
        t = next_marked(front, t + 1);
    }
}

// Each sum on the diagonal before what its entry holds.
fn put_diagonal(free_edges: &[u32], diagonal: &[f64], matrix: &mut SquareMatrix<'_>)
    requires { Below free_edges.now (length diagonal.now) × (matrix.old.n ≡ length free_edges.now) }
    ensures { Scattered ahead (diagonal_events free_edges.now diagonal.now) matrix.old matrix.new }
{
    let n = free_edges.len();
    for (i, edge) in free_edges.iter().enumerate() {
        let k = i * n + i;
        matrix.entries[k] = diagonal[*edge as usize] + matrix.entries[k];
    }
}

// What all triangles on free edges add, before what the entries hold, worked out in marks of T triangles and sums of E edges. Not
// inlined, so that marks and sums of one size alone lie on the stack, and none while a caller checks the complex.
#[inline(never)]
fn add_first_term_in<'a, const T: usize, const E: usize>(
    built: &Measured<'a>,
    free_edges: &'a [u32],
    matrix: &mut SquareMatrix<'_>,
)
    requires { (IsHolding (triangles_of built.now.complex) (edges_of built.now.complex) built.now.complex.edge_to_tris)
        × Below free_edges.now built.now.complex.counts.edges × (built.now.complex.counts.triangles ≤ T) × (T ≤ 81920)
        × (built.now.complex.counts.edges ≤ E) × (E ≤ 81920) × (matrix.old.n ≡ length free_edges.now) }
    ensures lent { matrix.new.entries.ghost_name ≡ matrix.old.entries.ghost_name }
    ensures entries { matrix.new.entries.now ≡ scatter nan ahead (diagonal_events free_edges.now (diagonal_of (faces_of built.now.complex) built.now.sq_lengths.now free_edges.now))
        (scatter nan before (gather (first_at (faces_of built.now.complex) built.now.sq_lengths.now free_edges.now) (local_triangles (faces_of built.now.complex) free_edges.now)) matrix.old.entries.now) }
{
    let mut marks = [false; T];
    let mut diagonal = [0.0; E];
    mark_tris(&built.complex, free_edges, &mut marks);
    add_tris(built, free_edges, &marks, &mut diagonal, matrix);
    put_diagonal(free_edges, &diagonal, matrix);
}

// The same in marks and sums of the smaller of two sizes where they suffice: to clear 81,920 of each takes as long as many hinges.
fn add_first_term<'a>(built: &Measured<'a>, free_edges: &'a [u32], matrix: &mut SquareMatrix<'_>)
    requires { (IsHolding (triangles_of built.now.complex) (edges_of built.now.complex) built.now.complex.edge_to_tris)
        × Below free_edges.now built.now.complex.counts.edges × (built.now.complex.counts.edges ≤ 81920) × (matrix.old.n ≡ length free_edges.now) }
    ensures lent { matrix.new.entries.ghost_name ≡ matrix.old.entries.ghost_name }
    ensures entries { matrix.new.entries.now ≡ scatter nan ahead (diagonal_events free_edges.now (diagonal_of (faces_of built.now.complex) built.now.sq_lengths.now free_edges.now))
        (scatter nan before (gather (first_at (faces_of built.now.complex) built.now.sq_lengths.now free_edges.now) (local_triangles (faces_of built.now.complex) free_edges.now)) matrix.old.entries.now) }
{
    let counts = built.complex.counts;
    if counts.triangles <= 16384 && counts.edges <= 8192 {
        return add_first_term_in::<16384, 8192>(built, free_edges, matrix);
    }
    add_first_term_in::<81920, 81920>(built, free_edges, matrix);
}

// ---- the whole

// The entries of all pairs of free edges.
pub fn write_hessian<'a>(
    complex: &Complex<'a>,
    incidence: &Incidence<'a>,
    sq_lengths: &'a [f64],
    free_edges: &'a [u32],
    fd_eps: f64,
    matrix: &mut [f64],
)
    requires { IsMeasured complex.now incidence.now (length sq_lengths.now)
        × (IsHolding (triangles_of complex.now) (edges_of complex.now) complex.now.edge_to_tris)
        × (IsHolding (pents_of complex.now) (edges_of complex.now) complex.now.edge_to_pents)
        × Below free_edges.now complex.now.counts.edges × Once free_edges.now × (complex.now.counts.edges ≤ 81920) × (length free_edges.now ≤ 81920) × (length free_edges.now * length free_edges.now ≤ length matrix.old) }
    ensures { matrix.new ≡ over (local_hessian (faces_of complex.now) sq_lengths.now free_edges.now fd_eps) matrix.old }
{
    let built = Measured {
        complex: *complex,
        incidence: *incidence,
        sq_lengths,
    };
    let n = free_edges.len();
    matrix[..n * n].fill(0.0);
    let mut lent = SquareMatrix { n, entries: matrix };
    add_second_term(&built, free_edges, fd_eps, &mut lent);
    add_first_term(&built, free_edges, &mut lent);
}
