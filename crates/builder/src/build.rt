// The complex of a list of pentachorons that passed the checks.
ghost use Rattle.std.specs.Prelude.{◌≡◌};
ghost use Rattle.complex.specs.Builder.{sorted_pents, counts_of, written, over_all};
ghost use Rattle.complex.specs.Lent.{lists_in, SameLists};
ghost use Rattle.complex.specs.Parts.{Buildable};

use complex::{Counts, Incidence, ListsMut, adjacency, number_all, sort_all};

// The ten lists are written. Scratch: `work` links the chains of the search, and then has the edges of each triangle.
pub fn build(n_vertices: usize, given: &[u32], lists: &mut ListsMut<'_>) -> Counts
    requires { Buildable given.now (lists_in lists.old) }
    ensures same { SameLists lists.old lists.new }
    ensures value { result ≡ counts_of n_vertices (sorted_pents given.now) }
    ensures lists_after { lists_in lists.new ≡ over_all (written (sorted_pents given.now)) (lists_in lists.old) }
{
    let mut work = [0u32; 245760];
    let mut pent_edges = [0u32; 81920];
    let mut pent_tris = [0u32; 81920];
    // The lists are lent on before any call: the check reads no field of `lists` while another is lent.
    let pents = &mut *lists.pents;
    let edges = &mut *lists.edges;
    let triangles = &mut *lists.triangles;
    let tets = &mut *lists.tets;
    let len = given.len();
    let met = 2 * len;
    sort_all(given, pents);
    let sorted: &[u32] = pents;
    let faces = number_all(
        &sorted[..len],
        edges,
        triangles,
        tets,
        &mut work,
        &mut pent_edges,
        &mut pent_tris,
    );
    let numbers = Incidence {
        pent_edges: &pent_edges[..met],
        pent_tris: &pent_tris[..met],
    };
    adjacency(&numbers, faces, &mut work, lists);
    Counts {
        vertices: n_vertices,
        pentachorons: len / 5,
        edges: faces.edges,
        triangles: faces.triangles,
        tets: faces.tets,
    }
}
