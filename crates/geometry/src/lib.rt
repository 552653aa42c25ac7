// Determinants and cofactors (geometry.rs), and those of the Cayley-Menger matrix of ten squared
// lengths, in the Rust's order of operations. A matrix is an array of rows.
#![tactic(auto)]

mod shared;

ghost use Rattle.std.specs.Prelude.{◌≡◌, ◌+◌, ◌<◌, ◌≤◌, ℕ, List, [], get_or, Float};
ghost use Rattle.std.specs.Float.{nan};
ghost use Rattle.floats.specs.Algebra.{doubles};
ghost use Rattle.geometry.specs.Determinant.{table, at, skip, minor, sign, det3, GivesMinors, expand, det4, det5, cofactor};
ghost use Rattle.geometry.specs.CayleyMenger.{cm, cofactors};
ghost use Rattle.geometry.specs.Answer.{cofactor_answer};

use refusals::Refusal;
use shared::{all_small, shared_cofactors};

// ---- rows and minors

// The i-th of the numbers 0, 1, .. without r.
fn skip_one(r: usize, i: usize) -> usize
    requires { i < 5 }
    ensures { (result ≡ skip r i) × (result ≤ i + 1) }
{
    if i < r { i } else { i + 1 }
}

// A row without its entry j; a number above M leaves out the last.
fn row_without<const N: usize, const M: usize>(x: &[f64; N], j: usize) -> [f64; M]
    requires { (N ≡ M + 1) × (M < 6) }
    ensures { result ≡ table M (λ i. get_or x.now (skip j i) nan) }
{
    std::array::from_fn(
        |i|
            requires { (i + 1 < N) × (i < 5) }
            ensures { result ≡ get_or x.entry.now (skip j i) nan }
        { x[skip_one(j, i)] },
    )
}

// A matrix without a row and a column; a number above M leaves out the last.
fn minor_of<const N: usize, const M: usize>(
    m: &[[f64; N]; N],
    row: usize,
    col: usize,
) -> [[f64; M]; M]
    requires { (N ≡ M + 1) × (M < 6) }
    ensures { result ≡ minor doubles M m.now row col }
{
    std::array::from_fn(
        |i|
            requires { (i < M) × (N ≡ M + 1) × (M < 6) }
            ensures { result ≡ table M (λ j. at doubles m.entry.now (skip row i) (skip col j)) }
        { row_without(&m[skip_one(row, i)], col) },
    )
}

// ---- determinants

// 1 where row + col is even, else -1.
fn sign_of(row: usize, col: usize) -> f64
    requires { (row < 6) × (col < 6) }
    ensures { result ≡ sign doubles (row + col) }
{
    if (row + col) % 2 == 0 { 1.0 } else { -1.0 }
}

// The expansion along a row, where `minor` gives the determinant of the minor of each column.
fn expand<const N: usize, D: Fn(usize) -> f64>(row: &[f64; N], minor: D) -> f64
    requires small { N < 7 }
    requires callable { (col : ℕ) → col < N → D.pre minor col }
    ensures { (m : List (List Float)) (f : List (List Float) → Float) (n : ℕ) → get_or m 0 [] ≡ row.now → GivesMinors (D.post minor) f n m N → result ≡ expand doubles f n m N }
{
    let mut sum = 0.0;
    for (col, entry) in row.iter().enumerate() {
        sum += sign_of(0, col) * entry * minor(col);
    }
    sum
}

// Determinant of a 3 × 3 matrix. Written out: its order of operations is not that of `expand`.
fn det_3x3(m: &[[f64; 3]; 3]) -> f64
    ensures { result ≡ det3 doubles m.now }
{
    m[0][0] * (m[1][1] * m[2][2] - m[1][2] * m[2][1])
        - m[0][1] * (m[1][0] * m[2][2] - m[1][2] * m[2][0])
        + m[0][2] * (m[1][0] * m[2][1] - m[1][1] * m[2][0])
}

// Determinant of a 4 × 4 matrix.
fn det_4x4(m: &[[f64; 4]; 4]) -> f64
    ensures { result ≡ det4 doubles m.now }
{
    expand(&m[0], |col| det_3x3(&minor_of(m, 0, col)))
}

// Determinant of a 5 × 5 matrix.
fn det_5x5(m: &[[f64; 5]; 5]) -> f64
    ensures { result ≡ det5 doubles m.now }
{
    expand(&m[0], |col| det_4x4(&minor_of(m, 0, col)))
}

// ---- cofactors

// The cofactor of a row and a column that the matrix has.
pub fn cofactor_at(m: &[[f64; 6]; 6], row: usize, col: usize) -> f64
    requires { (row < 6) × (col < 6) }
    ensures { result ≡ cofactor doubles m.now row col }
{
    sign_of(row, col) * det_5x5(&minor_of(m, row, col))
}

// The (row, col) cofactor of a 6 × 6 matrix. Refused with 11 where either is above 5.
pub fn cofactor_6x6(m: &[[f64; 6]; 6], row: usize, col: usize) -> Result<f64, Refusal>
    ensures { result ≡ cofactor_answer m.now row col }
{
    if 5 < row || 5 < col {
        return Err(Refusal::BadIndex);
    }
    Ok(cofactor_at(m, row, col))
}

// ---- the Cayley-Menger matrix

// The 6 × 6 Cayley-Menger matrix of the squared lengths 01, 02, 03, 04, 12, 13, 14, 23, 24, 34.
pub fn cm_matrix_signed(s: &[f64; 10]) -> [[f64; 6]; 6]
    ensures { result ≡ cm doubles s.now }
{
    [
        [0.0, 1.0, 1.0, 1.0, 1.0, 1.0],
        [1.0, 0.0, s[0], s[1], s[2], s[3]],
        [1.0, s[0], 0.0, s[4], s[5], s[6]],
        [1.0, s[1], s[4], 0.0, s[7], s[8]],
        [1.0, s[2], s[5], s[7], 0.0, s[9]],
        [1.0, s[3], s[6], s[8], s[9], 0.0],
    ]
}

// The 15 cofactors one by one, in the order of `cm_cofactors`. Not inlined, so that a caller has the stack of these or of the shared, and
// not of both.
#[inline(never)]
fn plain_cofactors(s: &[f64; 10]) -> [f64; 15]
    ensures { result ≡ cofactors doubles s.now }
{
    let m = cm_matrix_signed(s);
    // Written out: loops over row and column would count a place by hand beside them, and a `map` over a table would list the same
    // fifteen pairs and ask of each that it is in range.
    [
        cofactor_at(&m, 1, 1),
        cofactor_at(&m, 1, 2),
        cofactor_at(&m, 1, 3),
        cofactor_at(&m, 1, 4),
        cofactor_at(&m, 1, 5),
        cofactor_at(&m, 2, 2),
        cofactor_at(&m, 2, 3),
        cofactor_at(&m, 2, 4),
        cofactor_at(&m, 2, 5),
        cofactor_at(&m, 3, 3),
        cofactor_at(&m, 3, 4),
        cofactor_at(&m, 3, 5),
        cofactor_at(&m, 4, 4),
        cofactor_at(&m, 4, 5),
        cofactor_at(&m, 5, 5),
    ]
}

// The 15 cofactors of the rows and columns 1 to 5 of that matrix, no row above its column, row after row.
pub fn cm_cofactors(s: &[f64; 10]) -> [f64; 15]
    ensures { result ≡ cofactors doubles s.now }
{
    if all_small(s) {
        shared_cofactors(s)
    } else {
        plain_cofactors(s)
    }
}
