// The lengths of edges, and of a pentachoron.
ghost use Rattle.std.specs.Prelude.{◌≡◌, length};
ghost use Rattle.lists.specs.Groups.{Below};
ghost use Rattle.hinges.specs.Hinges.{lengths_at};

use std::array::from_fn;

// The squared lengths of edges, by their numbers.
pub fn sq_lengths_at<const N: usize>(edges: &[u32], sq_lengths: &[f64]) -> [f64; N]
    requires { (length edges.now ≡ N) × Below edges.now (length sq_lengths.now) }
    ensures { result ≡ lengths_at sq_lengths.now edges.now }
{
    from_fn(|k| sq_lengths[edges[k] as usize])
}

// The ten squared lengths of a pentachoron, by the numbers of its edges.
pub fn pent_sq_lengths(edges: &[u32], sq_lengths: &[f64]) -> [f64; 10]
    requires { (length edges.now ≡ 10) × Below edges.now (length sq_lengths.now) }
    ensures { result ≡ lengths_at sq_lengths.now edges.now }
{
    sq_lengths_at(edges, sq_lengths)
}
