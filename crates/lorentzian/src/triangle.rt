// The squared area of a triangle and its gradient.
ghost use Rattle.std.specs.Prelude.{◌≡◌, ◌≢◌, false, ◌<◌};
ghost use Rattle.lorentzian.specs.Triangle.{area_sq, area_sq_grad, edge_of, edge_idx, no_triangle, grad_in_pent, grad_answer};

use refusals::Refusal;

// Signed squared area of the triangle of three signed squared lengths.
#[tactic(auto, unfolding(crate::specs::Triangle::area16, crate::specs::Triangle::area_sq))]
pub fn triangle_area_sq_lorentzian(s01: f64, s02: f64, s12: f64) -> f64
    ensures { result ≡ area_sq s01 s02 s12 }
{
    let val = 2.0 * s01 * s02 + 2.0 * s02 * s12 + 2.0 * s12 * s01
        - s01 * s01
        - s02 * s02
        - s12 * s12;
    val / 16.0
}

// Gradient of the squared area by s01, s02 and s12.
#[tactic(auto, unfolding(crate::specs::Triangle::area_sq_grad))]
pub fn triangle_area_sq_grad(s01: f64, s02: f64, s12: f64) -> [f64; 3]
    ensures { result ≡ area_sq_grad s01 s02 s12 }
{
    [
        (s02 + s12 - s01) / 8.0,
        (s01 + s12 - s02) / 8.0,
        (s01 + s02 - s12) / 8.0,
    ]
}

// Number of the edge of two of a pentachoron's vertices, the lower one first.
#[tactic(auto, unfolding(crate::specs::Triangle::edge_of))]
fn edge_of(low: usize, high: usize) -> usize
    requires { (low < high) × (high < 5) }
    ensures { (result ≡ edge_of low high) × (result < 10) }
{
    match low {
        0 => high - 1,
        1 => high + 2,
        2 => high + 4,
        _ => 9,
    }
}

// Number of the edge of two of a pentachoron's vertices.
#[tactic(auto, unfolding(crate::specs::Triangle::edge_idx))]
pub fn edge_idx(a: usize, b: usize) -> usize
    requires { (a < 5) × (b < 5) × (a ≢ b) }
    ensures { (result ≡ edge_idx a b) × (result < 10) }
{
    if a < b { edge_of(a, b) } else { edge_of(b, a) }
}

// Whether a, b and c are no three of a pentachoron's five vertices.
#[tactic(auto, unfolding(crate::specs::Triangle::no_triangle))]
fn no_triangle(a: usize, b: usize, c: usize) -> bool
    ensures { result ≡ no_triangle a b c }
{
    4 < a || 4 < b || 4 < c || a == b || a == c || b == c
}

// Gradient of the squared area of the triangle abc by the pentachoron's ten squared lengths.
#[tactic(auto, unfolding(crate::specs::Triangle::no_triangle, crate::specs::Triangle::grad_in_pent))]
fn grad_in_pent(s: &[f64; 10], a: usize, b: usize, c: usize) -> [f64; 10]
    requires { no_triangle a b c ≡ false }
    ensures { result ≡ grad_in_pent s.now a b c }
{
    let ab = edge_idx(a, b);
    let ac = edge_idx(a, c);
    let bc = edge_idx(b, c);
    let grad3 = triangle_area_sq_grad(s[ab], s[ac], s[bc]);
    let mut grad10 = [0.0; 10];
    grad10[ab] = grad3[0];
    grad10[ac] = grad3[1];
    grad10[bc] = grad3[2];
    grad10
}

// Gradient of the squared area of a triangle of local vertices by the pentachoron's ten squared lengths. Refused with 11 where a
// vertex is above 4 or two are the same.
pub fn tri_area_sq_grad_in_pent(s: &[f64; 10], tri_local: [usize; 3]) -> Result<[f64; 10], Refusal>
    ensures { result ≡ grad_answer s.now tri_local }
{
    let [a, b, c] = tri_local;
    if no_triangle(a, b, c) {
        return Err(Refusal::BadIndex);
    }
    Ok(grad_in_pent(s, a, b, c))
}
