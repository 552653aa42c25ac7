// What the two libraries that C calls share: a complex of plain lists, its counts as five plain numbers, and in specs/ what the contracts
// of both cite.
#![tactic(auto)]

ghost use Rattle.std.specs.Prelude.{◌≡◌};
ghost use Rattle.boundary.specs.Counts.{counts_of_list, counts_list};

use complex::{AdjacencyList, Complex, Counts};

// Counts are five numbers where C gives and takes them. By functions: this crate may not write a `From` for types of other crates,
// and complex knows nothing of C.

// Five numbers as counts.
pub fn counts_of(c: [usize; 5]) -> Counts
    ensures { result ≡ counts_of_list c }
{
    Counts {
        vertices: c[0],
        pentachorons: c[1],
        edges: c[2],
        triangles: c[3],
        tets: c[4],
    }
}

// Counts as five numbers.
pub fn counts_list(c: Counts) -> [usize; 5]
    ensures { result ≡ counts_list c }
{
    [c.vertices, c.pentachorons, c.edges, c.triangles, c.tets]
}

// The complex of counts and lists, as C lends them one by one.
pub fn complex_of<'a>(
    counts: &[usize; 5],
    pents: &'a [u32],
    edges: &'a [u32],
    triangles: &'a [u32],
    tets: &'a [u32],
    tri_to_pents_items: &'a [u32],
    tri_to_pents_starts: &'a [u32],
    edge_to_tris_items: &'a [u32],
    edge_to_tris_starts: &'a [u32],
    edge_to_pents_items: &'a [u32],
    edge_to_pents_starts: &'a [u32],
) -> Complex<'a>
    ensures { result ≡ record {
      counts = counts_of_list counts.now;
      pents = pents.entry;
      edges = edges.entry;
      triangles = triangles.entry;
      tets = tets.entry;
      tri_to_pents = record { items = tri_to_pents_items.entry; starts = tri_to_pents_starts.entry };
      edge_to_tris = record { items = edge_to_tris_items.entry; starts = edge_to_tris_starts.entry };
      edge_to_pents = record { items = edge_to_pents_items.entry; starts = edge_to_pents_starts.entry };
    } }
{
    Complex {
        counts: counts_of(*counts),
        pents,
        edges,
        triangles,
        tets,
        tri_to_pents: AdjacencyList {
            items: tri_to_pents_items,
            starts: tri_to_pents_starts,
        },
        edge_to_tris: AdjacencyList {
            items: edge_to_tris_items,
            starts: edge_to_tris_starts,
        },
        edge_to_pents: AdjacencyList {
            items: edge_to_pents_items,
            starts: edge_to_pents_starts,
        },
    }
}
