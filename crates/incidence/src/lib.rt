// The faces that lie in each other, by their numbers. The lent lists are those of a complex, and `counts` says how far each is read.
// Each function asks only for what it needs of the lists, so that it serves over another numbering too: a struct with all these facts
// would ask more of callers.
#![tactic(auto)]

ghost use Rattle.std.specs.Prelude.{◌≡◌, ℕ, true, List, [], ◌∷◌, ◌+◌, ◌*◌, ◌-◌, ◌≤◌, ◌<◌, length, get_or, take, drop};
ghost use Rattle.lists.specs.Lists.{among, within};
ghost use Rattle.complex.specs.Complex.{holding, row_numbers};
ghost use Rattle.complex.specs.Lent.{pents_of, edges_of, triangles_of, IsHolding};
ghost use Rattle.complex.specs.Parts.{edge_at};
ghost use Rattle.incidence.specs.Incidence.{HasEdgeNumbers, HasTriangleNumbers, Simplices, Lie, edge_list, index_list, opposite_indices};

use complex::{AdjacencyList, Complex, Incidence, edge_at};

// The number of an edge.
#[derive(Clone, Copy, Debug, PartialEq, Eq, PartialOrd, Ord)]
pub struct EdgeNumber(pub u32);

// The number of a triangle.
#[derive(Clone, Copy, Debug, PartialEq, Eq, PartialOrd, Ord)]
pub struct TriangleNumber(pub u32);

// The number of a pentachoron.
#[derive(Clone, Copy, Debug, PartialEq, Eq, PartialOrd, Ord)]
pub struct PentachoronNumber(pub u32);

// The edges of a triangle with the vertices 0, 1, 2: 01, 02, 12. Three fields and no array: that there are three, the proofs above know
// from the type.
#[derive(Clone, Copy, Debug, PartialEq, Eq)]
pub struct TriangleEdges(pub EdgeNumber, pub EdgeNumber, pub EdgeNumber);

impl TriangleEdges {
    // The three numbers. No `From`: a conversion would not say what they are.
    pub fn numbers(&self) -> [u32; 3]
        ensures { result ≡ edge_list self.now }
    {
        [self.0.0, self.1.0, self.2.0]
    }
}

// The local indices of two vertices of a pentachoron.
#[derive(Clone, Copy, Debug, PartialEq, Eq)]
pub struct Opposite {
    pub l: usize,
    pub m: usize,
}

// The vertices that are not in a triangle, for the ten triangles of a pentachoron.
const OPPOSITE: [Opposite; 10] = [
    Opposite { l: 3, m: 4 },
    Opposite { l: 2, m: 4 },
    Opposite { l: 2, m: 3 },
    Opposite { l: 1, m: 4 },
    Opposite { l: 1, m: 3 },
    Opposite { l: 1, m: 2 },
    Opposite { l: 0, m: 4 },
    Opposite { l: 0, m: 3 },
    Opposite { l: 0, m: 2 },
    Opposite { l: 0, m: 1 },
];

// ---- adjacency

// The items of row i.
fn part<'a>(adjacency: &AdjacencyList<'a>, i: usize) -> &'a [u32]
    requires { (i + 1 < length adjacency.now.starts.now) × (get_or adjacency.now.starts.now i 0 ≤ get_or adjacency.now.starts.now (i + 1) 0)
        × (get_or adjacency.now.starts.now (i + 1) 0 ≤ length adjacency.now.items.now) }
    ensures { result.now ≡ take (get_or adjacency.now.starts.now (i + 1) 0 - get_or adjacency.now.starts.now i 0) (drop (get_or adjacency.now.starts.now i 0) adjacency.now.items.now) }
{
    let AdjacencyList { items, starts } = *adjacency;
    let from = starts[i] as usize;
    let to = starts[i + 1] as usize;
    &items[from..to]
}

// The numbers of the rows in which key i lies, ascending.
pub fn row<'a>(adjacency: &AdjacencyList<'a>, i: usize) -> &'a [u32]
    requires { (rs : List (List ℕ)) × (keys : List (List ℕ)) × IsHolding rs keys adjacency.now × (i < length keys) }
    ensures { (rs : List (List ℕ)) (keys : List (List ℕ)) → IsHolding rs keys adjacency.now → i < length keys → result.now ≡ holding rs (get_or keys i []) }
{
    part(adjacency, i)
}

// The numbers of the pentachorons in which a triangle lies, ascending.
pub fn pents_of_triangle<'a>(complex: &Complex<'a>, tri: TriangleNumber) -> &'a [u32]
    requires { (IsHolding (pents_of complex.now) (triangles_of complex.now) complex.now.tri_to_pents) × (tri.0 < complex.now.counts.triangles) }
    ensures { result.now ≡ holding (pents_of complex.now) (get_or (triangles_of complex.now) tri.0 []) }
{
    row(&complex.tri_to_pents, tri.0 as usize)
}

// The numbers of the triangles in which an edge lies, ascending.
pub fn tris_of_edge<'a>(complex: &Complex<'a>, edge: EdgeNumber) -> &'a [u32]
    requires { (IsHolding (triangles_of complex.now) (edges_of complex.now) complex.now.edge_to_tris) × (edge.0 < complex.now.counts.edges) }
    ensures { result.now ≡ holding (triangles_of complex.now) (get_or (edges_of complex.now) edge.0 []) }
{
    row(&complex.edge_to_tris, edge.0 as usize)
}

// The numbers of the pentachorons in which an edge lies, ascending.
pub fn pents_of_edge<'a>(complex: &Complex<'a>, edge: EdgeNumber) -> &'a [u32]
    requires { (IsHolding (pents_of complex.now) (edges_of complex.now) complex.now.edge_to_pents) × (edge.0 < complex.now.counts.edges) }
    ensures { result.now ≡ holding (pents_of complex.now) (get_or (edges_of complex.now) edge.0 []) }
{
    row(&complex.edge_to_pents, edge.0 as usize)
}

// ---- the faces of a pentachoron

// The ten numbers of row i.
fn ten<'a>(numbers: &'a [u32], i: usize) -> &'a [u32]
    requires { 10 * i + 10 ≤ length numbers.now }
    ensures { result.now ≡ take 10 (drop (10 * i) numbers.now) }
{
    // By its bounds: `chunks_exact(10).nth(i)` gives an Option, to be unwrapped by a proof of the same bounds.
    &numbers[10 * i..10 * i + 10]
}

// The numbers of the ten edges of a pentachoron with the vertices 0 to 4: 01, 02, 03, 04, 12, 13, 14, 23, 24, 34.
pub fn pent_edge_indices<'a>(
    complex: &Complex<'a>,
    incidence: &Incidence<'a>,
    pent: PentachoronNumber,
) -> &'a [u32]
    requires { HasEdgeNumbers complex.now incidence.now × (pent.0 < complex.now.counts.pentachorons) }
    ensures { result.now ≡ row_numbers (edges_of complex.now) 2 (get_or (pents_of complex.now) pent.0 []) }
{
    ten(incidence.pent_edges, pent.0 as usize)
}

// The numbers of the ten triangles of a pentachoron: 012, 013, 014, 023, 024, 034, 123, 124, 134, 234.
pub fn pent_tri_indices<'a>(
    complex: &Complex<'a>,
    incidence: &Incidence<'a>,
    pent: PentachoronNumber,
) -> &'a [u32]
    requires { HasTriangleNumbers complex.now incidence.now × (pent.0 < complex.now.counts.pentachorons) }
    ensures { result.now ≡ row_numbers (triangles_of complex.now) 3 (get_or (pents_of complex.now) pent.0 []) }
{
    ten(incidence.pent_tris, pent.0 as usize)
}

// ---- a triangle in a pentachoron

// Where n stands among `numbers`.
fn local_index(numbers: &[u32], n: u32) -> usize
    requires { among n numbers.now ≡ true }
    ensures { (result < length numbers.now) × (get_or numbers.now result 0 ≡ n) }
{
    numbers.iter().position(|number| *number == n).unwrap()
}

// The three edges of the q-th triangle of a pentachoron, by the numbers of its ten edges.
fn edges_at(ten: &[u32], q: usize) -> TriangleEdges
    requires { (length ten.now ≡ 10) × (q < 10) }
    ensures { edge_list result ≡ edge_at ten.now q 0 ∷ edge_at ten.now q 1 ∷ edge_at ten.now q 2 ∷ [] }
{
    TriangleEdges(
        EdgeNumber(edge_at(ten, q, 0)),
        EdgeNumber(edge_at(ten, q, 1)),
        EdgeNumber(edge_at(ten, q, 2)),
    )
}

// The numbers of the three edges of a triangle, read from the first pentachoron in which it lies.
pub fn tri_edge_indices<'a>(
    complex: &Complex<'a>,
    incidence: &Incidence<'a>,
    tri: TriangleNumber,
) -> TriangleEdges
    requires { Simplices (pents_of complex.now) (triangles_of complex.now)
        × Lie (pents_of complex.now) (triangles_of complex.now)
        × (IsHolding (pents_of complex.now) (triangles_of complex.now) complex.now.tri_to_pents)
        × HasEdgeNumbers complex.now incidence.now
        × HasTriangleNumbers complex.now incidence.now
        × (tri.0 < complex.now.counts.triangles) }
    ensures { edge_list result ≡ row_numbers (edges_of complex.now) 2 (get_or (triangles_of complex.now) tri.0 []) }
{
    let holders = pents_of_triangle(complex, tri);
    let first = PentachoronNumber(holders[0]);
    let tris = pent_tri_indices(complex, incidence, first);
    let own = pent_edge_indices(complex, incidence, first);
    edges_at(own, local_index(tris, tri.0))
}

// The two vertices of a pentachoron that are not in a triangle that lies in it.
pub fn opposite_local_indices<'a>(
    complex: &Complex<'a>,
    incidence: &Incidence<'a>,
    pent: PentachoronNumber,
    tri: TriangleNumber,
) -> Opposite
    requires { Simplices (pents_of complex.now) (triangles_of complex.now)
        × HasTriangleNumbers complex.now incidence.now
        × (pent.0 < complex.now.counts.pentachorons)
        × (tri.0 < complex.now.counts.triangles)
        × (within (get_or (triangles_of complex.now) tri.0 []) (get_or (pents_of complex.now) pent.0 []) ≡ true) }
    ensures { index_list result ≡ opposite_indices (get_or (pents_of complex.now) pent.0 []) (get_or (triangles_of complex.now) tri.0 []) }
{
    let tris = pent_tri_indices(complex, incidence, pent);
    OPPOSITE[local_index(tris, tri.0)]
}
