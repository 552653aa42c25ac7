// What one triangle and one pentachoron add to the matrix of second derivatives by the free edges. The place of an edge is that
// of its row and column, and the number of rows where it is not free.
#![tactic(auto)]

mod matrix;
mod places;

ghost use Rattle.std.specs.Prelude.{◌≡◌, ◌<◌, length, get_or};
ghost use Rattle.std.specs.Float.{nan};
ghost use Rattle.floats.specs.Ops.{◌⊕◌};
ghost use Rattle.lists.specs.Groups.{Below};
ghost use Rattle.lists.specs.Loops.{scatter};
ghost use Rattle.incidence.specs.Incidence.{edge_list};
ghost use Rattle.lorentzian.specs.Triangle.{grad_in_pent};
ghost use Rattle.second_derivatives.specs.SecondDerivatives.{area_second, first_adds, left_by, lengths_of, triangle_adds, second_adds, row_of, slope_row, nine_adds};
ghost use Rattle.second_derivatives.specs.Parts.{placed, slope_rows, on_diagonal, off_diagonal, before};
ghost use Rattle.second_derivatives.specs.Matrix.{Scattered};

use floats::abs;
use hinges::{abs_area, factor_of};
use incidence::TriangleEdges;
use jacobian::all_lorentzian_dihedrals_jacobian;
use lorentzian::{
    edge_idx, tri_area_sq_grad_in_pent, triangle_area_sq_grad, triangle_area_sq_lorentzian,
};
pub use matrix::SquareMatrix;
pub use places::places_in;

// The vertices of the triangle opposite each pair 01, 02, 03, 04, 12, 13, 14, 23, 24, 34.
// A table: the three would be filtered out of five by the two of the pair, which would be a table themselves.
const VERTICES: [[usize; 3]; 10] = [
    [2, 3, 4],
    [1, 3, 4],
    [1, 2, 4],
    [1, 2, 3],
    [0, 3, 4],
    [0, 2, 4],
    [0, 2, 3],
    [0, 1, 4],
    [0, 1, 3],
    [0, 1, 2],
];

// ---- the second term

// The k-th pair of a pentachoron's vertices, with the places of its ten edges and the derivatives of its ten dihedrals.
#[derive(Clone, Copy)]
struct Pair<'p> {
    k: usize,
    at: &'p [usize; 10],
    jacobian: &'p [f64; 100],
    ghost below: { k < 10 },
}

// The row of the e-th edge, by the derivative of an area and those of the pair's dihedral.
fn add_row(pair: &Pair<'_>, e: usize, slope: f64, matrix: &mut SquareMatrix<'_>)
    requires { e < 10 }
    ensures { Scattered ◌⊕◌ (placed matrix.old.n pair.now.at.now (row_of slope pair.now.jacobian.now pair.now.k e)) matrix.old matrix.new }
{
    for (f, col) in pair.at.iter().enumerate() {
        matrix.add(pair.at[e], *col, slope * -pair.jacobian[10 * pair.k + f]);
    }
}

// The same for a free edge and a derivative that is not below 1e-30.
fn add_slope(pair: &Pair<'_>, e: usize, slope: f64, matrix: &mut SquareMatrix<'_>)
    requires { e < 10 }
    ensures { Scattered ◌⊕◌ (placed matrix.old.n pair.now.at.now (slope_row slope pair.now.jacobian.now pair.now.k e)) matrix.old matrix.new }
{
    if pair.at[e] >= matrix.n {
        return;
    }
    if abs(slope) < 1e-30 {
        return;
    }
    add_row(pair, e, slope, matrix);
}

// The rows of all ten edges, by an area's factor and the derivatives of its square.
fn add_slopes(pair: &Pair<'_>, factor: f64, grad: &[f64; 10], matrix: &mut SquareMatrix<'_>)
    ensures { Scattered ◌⊕◌ (placed matrix.old.n pair.now.at.now (slope_rows factor grad.now pair.now.jacobian.now pair.now.k)) matrix.old matrix.new }
{
    for (e, part) in grad.iter().enumerate() {
        add_slope(pair, e, factor * *part, matrix);
    }
}

// The squared lengths of the triangle opposite a pair.
fn lengths_opposite(s: &[f64; 10], pair: &Pair<'_>) -> [f64; 3]
    ensures { result ≡ lengths_of s.now (left_by pair.now.k) }
{
    let [a, b, c] = VERTICES[pair.k];
    [s[edge_idx(a, b)], s[edge_idx(a, c)], s[edge_idx(b, c)]]
}

// The derivatives of its squared area by the ten squared lengths.
fn grad_opposite(s: &[f64; 10], pair: &Pair<'_>) -> [f64; 10]
    ensures { result ≡ grad_in_pent s.now (get_or (left_by pair.now.k) 0 0) (get_or (left_by pair.now.k) 1 0) (get_or (left_by pair.now.k) 2 0) }
{
    // The three vertices are a triangle's, so that nothing is refused.
    tri_area_sq_grad_in_pent(s, VERTICES[pair.k]).unwrap()
}

// What the triangle opposite a pair adds; an area below 1e-30 is skipped.
fn add_opposite(pair: &Pair<'_>, s: &[f64; 10], matrix: &mut SquareMatrix<'_>)
    ensures { Scattered ◌⊕◌ (placed matrix.old.n pair.now.at.now (triangle_adds s.now pair.now.jacobian.now pair.now.k)) matrix.old matrix.new }
{
    let own = lengths_opposite(s, pair);
    let area = abs_area(own);
    if area < 1e-30 {
        return;
    }
    let factor = factor_of(triangle_area_sq_lorentzian(own[0], own[1], own[2]), area);
    let grad = grad_opposite(s, pair);
    add_slopes(pair, factor, &grad, matrix);
}

// What a pentachoron of ten squared lengths adds.
pub fn add_second(at: &[usize; 10], s: &[f64; 10], fd_eps: f64, matrix: &mut SquareMatrix<'_>)
    ensures { Scattered ◌⊕◌ (placed matrix.old.n at.now (second_adds s.now fd_eps)) matrix.old matrix.new }
{
    let jacobian = all_lorentzian_dihedrals_jacobian(s, fd_eps);
    for k in 0..10 {
        let pair = Pair {
            k,
            at,
            jacobian: &jacobian,
        };
        add_opposite(&pair, s, matrix);
    }
}

// ---- the first term

// The second derivative of an area by the i-th and the j-th of three squared lengths: the sign of the squared area multiplies the
// first part only.
fn area_second(s: [f64; 3], area: f64, i: usize, j: usize) -> f64
    requires { (i < 3) × (j < 3) }
    ensures { result ≡ area_second s area i j }
{
    let sign = if 0.0 <= triangle_area_sq_lorentzian(s[0], s[1], s[2]) {
        1.0
    } else {
        -1.0
    };
    let square = if i == j { -1.0 } else { 1.0 };
    let grad = triangle_area_sq_grad(s[0], s[1], s[2]);
    sign * (square / 8.0) * (1.0 / (2.0 * area))
        - grad[i] * grad[j] * (1.0 / (4.0 * area * area * area))
}

// What a triangle adds on the diagonal, by the numbers of its edges. `s`, `area` and `deficit` go to `put_others` too, as `edges`, `s` and
// `deficit` do to `add_first`: no fact binds them, and a struct would be made in one function and taken apart in the next.
fn add_diagonal(edges: TriangleEdges, s: [f64; 3], area: f64, deficit: f64, diagonal: &mut [f64])
    requires { Below (edge_list edges) (length diagonal.old) }
    ensures { diagonal.new ≡ scatter nan ◌⊕◌ (on_diagonal (edge_list edges) (nine_adds s area deficit)) diagonal.old }
{
    let own = edges.numbers();
    for (i, edge) in own.iter().enumerate() {
        diagonal[*edge as usize] += area_second(s, area, i, i) * deficit;
    }
}

// The pairs of different edges of a triangle.
const OTHERS: [(usize, usize); 6] = [(0, 1), (0, 2), (1, 0), (1, 2), (2, 0), (2, 1)];

// What a triangle adds off the diagonal.
fn put_others(at: [usize; 3], s: [f64; 3], area: f64, deficit: f64, matrix: &mut SquareMatrix<'_>)
    ensures { Scattered before (placed matrix.old.n at (off_diagonal (nine_adds s area deficit))) matrix.old matrix.new }
{
    for (i, j) in OTHERS {
        matrix.put_before(at[i], at[j], area_second(s, area, i, j) * deficit);
    }
}

// What a triangle adds, on the diagonal and off it; an area below 1e-30 is skipped.
pub fn add_first(
    at: [usize; 3],
    edges: TriangleEdges,
    s: [f64; 3],
    deficit: f64,
    diagonal: &mut [f64],
    matrix: &mut SquareMatrix<'_>,
)
    requires { Below (edge_list edges) (length diagonal.old) }
    ensures diagonal { diagonal.new ≡ scatter nan ◌⊕◌ (on_diagonal (edge_list edges) (first_adds s deficit)) diagonal.old }
    ensures others { Scattered before (placed matrix.old.n at (off_diagonal (first_adds s deficit))) matrix.old matrix.new }
{
    let area = abs_area(s);
    if area < 1e-30 {
        return;
    }
    add_diagonal(edges, s, area, deficit, diagonal);
    put_others(at, s, area, deficit, matrix);
}
