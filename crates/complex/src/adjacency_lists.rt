// The adjacency lists, from the numbers of the edges and triangles of each pentachoron.
ghost use Rattle.std.specs.Prelude.{◌≡◌, ◌*◌, ◌%◌, ◌<◌, length, take};
ghost use Rattle.complex.specs.Parts.{edge_at, Consistent, EdgesOf, Adjacent};
ghost use Rattle.complex.specs.Lent.{SameLists, Grouped};

use crate::{FaceCounts, Incidence, ListsMut};
use lists::group;

// Where each triangle's three edges stand among the ten edges of its pentachoron.
const TRI_EDGES: [[usize; 3]; 10] = [
    [0, 1, 4],
    [0, 2, 5],
    [0, 3, 6],
    [1, 2, 7],
    [1, 3, 8],
    [2, 3, 9],
    [4, 5, 7],
    [4, 6, 8],
    [5, 6, 9],
    [7, 8, 9],
];

// The number of edge i of the triangle that is met as the k-th.
#[tactic(auto, unfolding(crate::specs::Parts::edge_at))]
pub fn edge_at(pent_edges: &[u32], k: usize, i: usize) -> u32
    requires { (length pent_edges.now % 10 ≡ 0) × (k < length pent_edges.now) × (i < 3) }
    ensures { result ≡ edge_at pent_edges.now k i }
{
    let place = TRI_EDGES[k % 10][i];
    pent_edges[10 * (k / 10) + place]
}

// The numbers of the three edges of each triangle, read from every pentachoron in which it lies.
fn edges_of_triangles(pent_edges: &[u32], pent_tris: &[u32], tri_edges: &mut [u32])
    requires { Consistent pent_edges.now pent_tris.now (length tri_edges.old) }
    ensures { EdgesOf pent_edges.now pent_tris.now tri_edges.new (length pent_tris.now) }
{
    for (k, tri) in pent_tris.iter().enumerate() {
        let to = 3 * *tri as usize;
        tri_edges[to] = edge_at(pent_edges, k, 0);
        tri_edges[to + 1] = edge_at(pent_edges, k, 1);
        tri_edges[to + 2] = edge_at(pent_edges, k, 2);
    }
}

// The three adjacency lists, from the numbers of the faces of each pentachoron and how many there are. `tri_edges` gets the numbers of
// the edges of each triangle.
pub fn adjacency(
    numbers: &Incidence<'_>,
    faces: FaceCounts,
    tri_edges: &mut [u32],
    lists: &mut ListsMut<'_>,
)
    requires { Adjacent numbers.now.pent_edges.now numbers.now.pent_tris.now faces.edges faces.triangles (length tri_edges.old) (record {
      tri_to_pents = length lists.old.tri_to_pents_items.now;
      tri_to_pents_starts = length lists.old.tri_to_pents_starts.now;
      edge_to_tris = length lists.old.edge_to_tris_items.now;
      edge_to_tris_starts = length lists.old.edge_to_tris_starts.now;
      edge_to_pents = length lists.old.edge_to_pents_items.now;
      edge_to_pents_starts = length lists.old.edge_to_pents_starts.now;
    }) }
    ensures same { SameLists lists.old lists.new }
    ensures edges { EdgesOf numbers.now.pent_edges.now numbers.now.pent_tris.now tri_edges.new (length numbers.now.pent_tris.now) }
    ensures lists_after { Grouped numbers.now.pent_edges.now numbers.now.pent_tris.now tri_edges.new faces.edges faces.triangles lists.old lists.new }
{
    // Items and starts are lent on before each call: the check reads no field of `lists` while another is lent.
    edges_of_triangles(numbers.pent_edges, numbers.pent_tris, tri_edges);
    let items = &mut *lists.tri_to_pents_items;
    let starts = &mut *lists.tri_to_pents_starts;
    group(numbers.pent_tris, 10, faces.triangles, items, starts);
    let items = &mut *lists.edge_to_tris_items;
    let starts = &mut *lists.edge_to_tris_starts;
    group(
        &tri_edges[..3 * faces.triangles],
        3,
        faces.edges,
        items,
        starts,
    );
    let items = &mut *lists.edge_to_pents_items;
    let starts = &mut *lists.edge_to_pents_starts;
    group(numbers.pent_edges, 10, faces.edges, items, starts);
}
