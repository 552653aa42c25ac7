// What one triangle adds to the gradient of the action.
ghost use Rattle.std.specs.Prelude.{◌≡◌, length};
ghost use Rattle.std.specs.Float.{nan};
ghost use Rattle.floats.specs.Ops.{◌⊕◌};
ghost use Rattle.lists.specs.Groups.{Below};
ghost use Rattle.lists.specs.Loops.{scatter};
ghost use Rattle.incidence.specs.Incidence.{edge_list};
ghost use Rattle.hinges.specs.Action.{factor_of, contribution_of, contributions_of};

use crate::area::abs_area;
use incidence::TriangleEdges;
use lorentzian::{triangle_area_sq_grad, triangle_area_sq_lorentzian};

// The sign of a squared area, over twice the area.
#[tactic(auto, unfolding(crate::specs::Action::factor_of))]
pub fn factor_of(area_sq: f64, area: f64) -> f64
    ensures { result ≡ factor_of area_sq area }
{
    let sign = if 0.0 <= area_sq { 1.0 } else { -1.0 };
    sign / (2.0 * area)
}

// What a triangle adds at its three edges.
fn contribution_of(s: [f64; 3], area: f64, deficit: f64) -> [f64; 3]
    ensures { result ≡ contribution_of s area deficit }
{
    let factor = factor_of(triangle_area_sq_lorentzian(s[0], s[1], s[2]), area);
    triangle_area_sq_grad(s[0], s[1], s[2]).map(|entry| factor * entry * deficit)
}

// The entries of a triangle's edges with what the triangle adds; an area below 1e-30 is skipped.
pub fn add_contributions(edges: TriangleEdges, s: [f64; 3], deficit: f64, grad: &mut [f64])
    requires { Below (edge_list edges) (length grad.old) }
    ensures { grad.new ≡ scatter nan ◌⊕◌ (contributions_of (edge_list edges) s deficit) grad.old }
{
    let area = abs_area(s);
    if area < 1e-30 {
        return;
    }
    let added = contribution_of(s, area, deficit);
    for (edge, x) in edges.numbers().iter().zip(added.iter()) {
        grad[*edge as usize] += *x;
    }
}
