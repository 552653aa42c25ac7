// The places of edges among the free ones.
ghost use Rattle.std.specs.Prelude.{◌≡◌, length};
ghost use Rattle.second_derivatives.specs.Parts.{index_of, places_in};

use std::array::from_fn;

// Where an edge stands among the free ones, and how many there are where it does not: no row or column has that place, so that one
// comparison tells all edges that are not free, where options would be unwrapped and their places compared all the same.
fn index_of(free_edges: &[u32], edge: u32) -> usize
    ensures { result ≡ index_of edge free_edges.now }
{
    free_edges
        .iter()
        .position(|e| *e == edge)
        .unwrap_or(free_edges.len())
}

// The places of these edges.
pub fn places_in<const N: usize>(free_edges: &[u32], edges: &[u32]) -> [usize; N]
    requires { length edges.now ≡ N }
    ensures { result ≡ places_in free_edges.now edges.now }
{
    from_fn(|k| index_of(free_edges, edges[k]))
}
