// The areas of triangles.
ghost use Rattle.std.specs.Prelude.{◌≡◌, length};
ghost use Rattle.lists.specs.Groups.{Below};
ghost use Rattle.incidence.specs.Incidence.{edge_list};
ghost use Rattle.hinges.specs.Hinges.{lengths_at};
ghost use Rattle.hinges.specs.Action.{abs_area};

use crate::pentachoron::sq_lengths_at;
use floats::abs;
use incidence::TriangleEdges;
use lorentzian::triangle_area_sq_lorentzian;
use root::root;

// The three squared lengths of a triangle, by the numbers of its edges.
pub fn tri_sq_lengths(edges: TriangleEdges, sq_lengths: &[f64]) -> [f64; 3]
    requires { Below (edge_list edges) (length sq_lengths.now) }
    ensures { result ≡ lengths_at sq_lengths.now (edge_list edges) }
{
    sq_lengths_at(&edges.numbers(), sq_lengths)
}

// The area of a triangle of three squared lengths: the root of the squared area, its sign cleared.
#[tactic(auto, unfolding(crate::specs::Action::abs_area))]
pub fn abs_area(s: [f64; 3]) -> f64
    ensures { result ≡ abs_area s }
{
    root(abs(triangle_area_sq_lorentzian(s[0], s[1], s[2])))
}
