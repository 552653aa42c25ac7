// The check behind refusal 7: counts and lists compared with what the builder answers and writes.
#![tactic(auto)]

mod faces;
mod holding;

ghost use Rattle.std.specs.Prelude.{◌≡◌, ◌*◌, ◌≤◌, length};
ghost use Rattle.complex.specs.Builder.{pentachorons};
ghost use Rattle.complex.specs.Check.{is_built, Checked};
ghost use Rattle.complex.specs.Lent.{lists_of, pents_of};
ghost use Rattle.comparison.specs.CheckParts.{rises, all_rise, has_pents, has_all_faces, has_adjacency};
ghost use Rattle.comparison.specs.Parts.{Scratch, Noting, Faced};

use complex::{Complex, Face};
use faces::has_faces;
use holding::is_holding;
use lists::FlatRows;
use refusals::Refusal;

// Whether the vertices of a pentachoron rise, and the last is below n.
fn vertices_rise(n: usize, pent: &[u32]) -> bool
    requires { length pent.now ≡ 5 }
    ensures { result ≡ rises n pent.now }
{
    pent.is_sorted_by(|a, b| a < b) && (pent[4] as usize) < n
}

// Whether the vertices of every pentachoron do.
fn all_rise(n: usize, pents: &[u32]) -> bool
    ensures { result ≡ all_rise n (pentachorons pents.now) }
{
    pents.chunks_exact(5).all(|pent| vertices_rise(n, pent))
}

// Whether there is a sorted pentachoron list that the builder takes.
#[tactic(auto, unfolding(crate::specs::CheckParts::has_pents))]
fn has_pents(complex: &Complex<'_>) -> bool
    ensures { result ≡ has_pents complex.now.counts (lists_of complex.now) }
{
    let counts = complex.counts;
    if counts.vertices == 0 || 4096 < counts.vertices || 8192 < counts.pentachorons {
        return false;
    }
    let len = 5 * counts.pentachorons;
    len <= complex.pents.len() && all_rise(counts.vertices, &complex.pents[..len])
}

// Whether the lists of faces are those of the pentachorons. The numbers of their edges and triangles are noted (`Noting`).
fn has_all_faces(complex: &Complex<'_>, pent_edges: &mut [u32], pent_tris: &mut [u32]) -> bool
    requires long { 5 * complex.now.counts.pentachorons ≤ length complex.now.pents.now }
    requires scratch { Scratch (5 * complex.now.counts.pentachorons) (length pent_edges.old) (length pent_tris.old) }
    ensures value { result ≡ has_all_faces complex.now.counts (lists_of complex.now) }
    ensures noting { Noting (pents_of complex.now) result pent_edges.old pent_tris.old pent_edges.new pent_tris.new }
{
    let mut next = [0u32; 81920];
    let counts = complex.counts;
    let pents = &complex.pents[..5 * counts.pentachorons];
    has_faces(
        Face::Tet,
        pents,
        counts.tets,
        complex.tets,
        &mut next,
        pent_tris,
    ) && has_faces(
        Face::Edge,
        pents,
        counts.edges,
        complex.edges,
        &mut next,
        pent_edges,
    ) && has_faces(
        Face::Triangle,
        pents,
        counts.triangles,
        complex.triangles,
        &mut next,
        pent_tris,
    )
}

// Whether the adjacency lists are those of the pentachorons and their faces.
fn has_adjacency(complex: &Complex<'_>) -> bool
    requires { Faced complex.now.counts (lists_of complex.now) }
    ensures { result ≡ has_adjacency complex.now.counts (lists_of complex.now) }
{
    let counts = complex.counts;
    let met = 10 * counts.pentachorons;
    let pents = FlatRows {
        width: 5,
        count: counts.pentachorons,
        list: complex.pents,
    };
    let edges = FlatRows {
        width: 2,
        count: counts.edges,
        list: complex.edges,
    };
    let triangles = FlatRows {
        width: 3,
        count: counts.triangles,
        list: complex.triangles,
    };
    is_holding(&triangles, &pents, &complex.tri_to_pents, met)
        && is_holding(
            &edges,
            &triangles,
            &complex.edge_to_tris,
            3 * counts.triangles,
        )
        && is_holding(&edges, &pents, &complex.edge_to_pents, met)
}

// Whether a complex is built, for a caller with scratch of its own: where it is, the numbers of the edges and triangles of each
// pentachoron are noted; where it is not, the first ten places for each pentachoron are left free. All other places are kept. Two lists
// and no struct: C lends them apart, and a struct of `&mut` would need a clause that each is written where it was lent.
pub fn is_built_noting(complex: &Complex<'_>, pent_edges: &mut [u32], pent_tris: &mut [u32]) -> bool
    requires { (81920 ≤ length pent_edges.old) × (81920 ≤ length pent_tris.old) }
    ensures value { result ≡ is_built complex.now.counts (lists_of complex.now) }
    ensures noting { Noting (pents_of complex.now) result pent_edges.old pent_tris.old pent_edges.new pent_tris.new }
{
    has_pents(complex) && has_all_faces(complex, pent_edges, pent_tris) && has_adjacency(complex)
}

// Whether a complex is built: its counts and lists are what the builder answers and writes.
pub fn is_built(complex: &Complex<'_>) -> bool
    ensures { result ≡ is_built complex.now.counts (lists_of complex.now) }
{
    // Fixed memory: each of the two calls with no scratch of the caller's brings its own.
    let mut edge_numbers = [0u32; 81920];
    let mut tri_numbers = [0u32; 81920];
    is_built_noting(complex, &mut edge_numbers, &mut tri_numbers)
}

// The check of a complex, and the ten edge numbers and ten triangle numbers of each pentachoron. A refused call leaves both
// lists as they were; otherwise the places that are not written are kept.
pub fn check_built(
    complex: &Complex<'_>,
    pent_edges: &mut [u32],
    pent_tris: &mut [u32],
) -> Result<(), Refusal>
    ensures { Checked complex.now.counts (lists_of complex.now) pent_edges.old pent_tris.old result pent_edges.new pent_tris.new }
{
    let mut edge_numbers = [0u32; 81920];
    let mut tri_numbers = [0u32; 81920];
    if !is_built_noting(complex, &mut edge_numbers, &mut tri_numbers) {
        return Err(Refusal::NotBuilt);
    }
    let met = 10 * complex.counts.pentachorons;
    if pent_edges.len() < met || pent_tris.len() < met {
        return Err(Refusal::ShortRoom);
    }
    pent_edges[..met].copy_from_slice(&edge_numbers[..met]);
    pent_tris[..met].copy_from_slice(&tri_numbers[..met]);
    Ok(())
}
