// The fifteen cofactors, each minor that several of them share worked out once: straight-line code. A minor stands in its list by its
// columns, in the order of `pairs`, `triples` and `bordered`; the compiler drops those that nothing reads.
ghost use Rattle.std.specs.Prelude.{◌≡◌, true, List, [], ◌∷◌, Float, drop};
ghost use Rattle.floats.specs.Algebra.{doubles};
ghost use Rattle.floats.specs.Ops.{◌⊗◌};
ghost use Rattle.geometry.specs.Determinant.{det3, det4};
ghost use Rattle.geometry.specs.CayleyMenger.{cofactors};
ghost use Rattle.geometry.specs.Minors.{det2, minors, pairs, triples, bordered, past_zero, all_small};

use crate::cm_matrix_signed;
use floats::abs;

// ---- the guard

// What a length is below in size. It is below 2^250, so that no determinant of four rows of lengths overflows.
const SMALL: f64 = 1e75;

// Whether all lengths are below it in size; NaN is not.
pub fn all_small(s: &[f64; 10]) -> bool
    ensures { result ≡ all_small s.now }
{
    s.iter().all(|x| abs(*x) < SMALL)
}

// ---- minors

// The minors of two rows.
#[inline(always)]
fn minors_2x2(x: &[f64; 6], y: &[f64; 6]) -> [f64; 15]
    ensures { result ≡ minors doubles (det2 doubles) (x.now ∷ y.now ∷ []) pairs }
{
    [
        x[0] * y[1] - x[1] * y[0],
        x[0] * y[2] - x[2] * y[0],
        x[0] * y[3] - x[3] * y[0],
        x[0] * y[4] - x[4] * y[0],
        x[0] * y[5] - x[5] * y[0],
        x[1] * y[2] - x[2] * y[1],
        x[1] * y[3] - x[3] * y[1],
        x[1] * y[4] - x[4] * y[1],
        x[1] * y[5] - x[5] * y[1],
        x[2] * y[3] - x[3] * y[2],
        x[2] * y[4] - x[4] * y[2],
        x[2] * y[5] - x[5] * y[2],
        x[3] * y[4] - x[4] * y[3],
        x[3] * y[5] - x[5] * y[3],
        x[4] * y[5] - x[5] * y[4],
    ]
}

// The minors of three rows, by those of the last two.
#[inline(always)]
fn minors_3x3(x: &[f64; 6], m: &[f64; 15]) -> [f64; 20]
    ensures { (y z : List Float) → m.now ≡ minors doubles (det2 doubles) (y ∷ z ∷ []) pairs → result ≡ minors doubles (det3 doubles) (x.now ∷ y ∷ z ∷ []) triples }
{
    [
        x[0] * m[5] - x[1] * m[1] + x[2] * m[0],
        x[0] * m[6] - x[1] * m[2] + x[3] * m[0],
        x[0] * m[7] - x[1] * m[3] + x[4] * m[0],
        x[0] * m[8] - x[1] * m[4] + x[5] * m[0],
        x[0] * m[9] - x[2] * m[2] + x[3] * m[1],
        x[0] * m[10] - x[2] * m[3] + x[4] * m[1],
        x[0] * m[11] - x[2] * m[4] + x[5] * m[1],
        x[0] * m[12] - x[3] * m[3] + x[4] * m[2],
        x[0] * m[13] - x[3] * m[4] + x[5] * m[2],
        x[0] * m[14] - x[4] * m[4] + x[5] * m[3],
        x[1] * m[9] - x[2] * m[6] + x[3] * m[5],
        x[1] * m[10] - x[2] * m[7] + x[4] * m[5],
        x[1] * m[11] - x[2] * m[8] + x[5] * m[5],
        x[1] * m[12] - x[3] * m[7] + x[4] * m[6],
        x[1] * m[13] - x[3] * m[8] + x[5] * m[6],
        x[1] * m[14] - x[4] * m[8] + x[5] * m[7],
        x[2] * m[12] - x[3] * m[10] + x[4] * m[9],
        x[2] * m[13] - x[3] * m[11] + x[5] * m[9],
        x[2] * m[14] - x[4] * m[11] + x[5] * m[10],
        x[3] * m[14] - x[4] * m[13] + x[5] * m[12],
    ]
}

// The minors of four rows in the border's column and three others, by those of the last three.
#[inline(always)]
fn minors_4x4(x: &[f64; 6], m: &[f64; 20]) -> [f64; 10]
    ensures { (y z w : List Float) → m.now ≡ minors doubles (det3 doubles) (y ∷ z ∷ w ∷ []) triples → result ≡ minors doubles (det4 doubles) (x.now ∷ y ∷ z ∷ w ∷ []) bordered }
{
    [
        0.0 + 1.0 * x[0] * m[10] + -1.0 * x[1] * m[4] + 1.0 * x[2] * m[1] + -1.0 * x[3] * m[0],
        0.0 + 1.0 * x[0] * m[11] + -1.0 * x[1] * m[5] + 1.0 * x[2] * m[2] + -1.0 * x[4] * m[0],
        0.0 + 1.0 * x[0] * m[12] + -1.0 * x[1] * m[6] + 1.0 * x[2] * m[3] + -1.0 * x[5] * m[0],
        0.0 + 1.0 * x[0] * m[13] + -1.0 * x[1] * m[7] + 1.0 * x[3] * m[2] + -1.0 * x[4] * m[1],
        0.0 + 1.0 * x[0] * m[14] + -1.0 * x[1] * m[8] + 1.0 * x[3] * m[3] + -1.0 * x[5] * m[1],
        0.0 + 1.0 * x[0] * m[15] + -1.0 * x[1] * m[9] + 1.0 * x[4] * m[3] + -1.0 * x[5] * m[2],
        0.0 + 1.0 * x[0] * m[16] + -1.0 * x[2] * m[7] + 1.0 * x[3] * m[5] + -1.0 * x[4] * m[4],
        0.0 + 1.0 * x[0] * m[17] + -1.0 * x[2] * m[8] + 1.0 * x[3] * m[6] + -1.0 * x[5] * m[4],
        0.0 + 1.0 * x[0] * m[18] + -1.0 * x[2] * m[9] + 1.0 * x[4] * m[6] + -1.0 * x[5] * m[5],
        0.0 + 1.0 * x[0] * m[19] + -1.0 * x[3] * m[9] + 1.0 * x[4] * m[8] + -1.0 * x[5] * m[7],
    ]
}

// ---- cofactors

// A cofactor of the sign of its place and the four minors that the ones of the border's row multiply.
#[inline(always)]
fn bordered_cofactor(sign: f64, d: [f64; 4]) -> f64
    ensures { result ≡ sign ⊗ past_zero doubles d }
{
    sign * (0.0 + -1.0 * 1.0 * d[0] + 1.0 * 1.0 * d[1] + -1.0 * 1.0 * d[2] + 1.0 * 1.0 * d[3])
}

// The last three of the 15 cofactors of small lengths, those of the rows and columns 4 and 5, by the minors of some of the rows 1 to 5
// (`of_34`) and of all of them but one (`but_4`). They share no minor with the others. What the 0 of the border's row multiplies is left
// out: it is finite, so that its term is 0. Not inlined: where one function has all fifteen, many more minors lie on the stack at once.
#[inline(never)]
fn last_three(s: &[f64; 10]) -> [f64; 3]
    requires { all_small s.now ≡ true }
    ensures { result ≡ drop 12 (cofactors doubles s.now) }
{
    let m = cm_matrix_signed(s);
    let of_34 = minors_2x2(&m[3], &m[4]);
    let of_35 = minors_2x2(&m[3], &m[5]);
    let of_234 = minors_3x3(&m[2], &of_34);
    let of_235 = minors_3x3(&m[2], &of_35);
    let but_4 = minors_4x4(&m[1], &of_235);
    let but_5 = minors_4x4(&m[1], &of_234);
    [
        bordered_cofactor(1.0, [but_4[7], but_4[4], but_4[2], but_4[0]]),
        bordered_cofactor(-1.0, [but_4[6], but_4[3], but_4[1], but_4[0]]),
        bordered_cofactor(1.0, [but_5[6], but_5[3], but_5[1], but_5[0]]),
    ]
}

// The 15 cofactors of small lengths, the last three of which are given; the first twelve by minors as those.
#[inline(never)]
fn all_fifteen(s: &[f64; 10], last: [f64; 3]) -> [f64; 15]
    requires small { all_small s.now ≡ true }
    requires rest { last ≡ drop 12 (cofactors doubles s.now) }
    ensures { result ≡ cofactors doubles s.now }
{
    let m = cm_matrix_signed(s);
    let of_45 = minors_2x2(&m[4], &m[5]);
    let of_245 = minors_3x3(&m[2], &of_45);
    let of_345 = minors_3x3(&m[3], &of_45);
    let but_1 = minors_4x4(&m[2], &of_345);
    let but_2 = minors_4x4(&m[1], &of_345);
    let but_3 = minors_4x4(&m[1], &of_245);
    [
        bordered_cofactor(1.0, [but_1[9], but_1[8], but_1[7], but_1[6]]),
        bordered_cofactor(-1.0, [but_1[9], but_1[5], but_1[4], but_1[3]]),
        bordered_cofactor(1.0, [but_1[8], but_1[5], but_1[2], but_1[1]]),
        bordered_cofactor(-1.0, [but_1[7], but_1[4], but_1[2], but_1[0]]),
        bordered_cofactor(1.0, [but_1[6], but_1[3], but_1[1], but_1[0]]),
        bordered_cofactor(1.0, [but_2[9], but_2[5], but_2[4], but_2[3]]),
        bordered_cofactor(-1.0, [but_2[8], but_2[5], but_2[2], but_2[1]]),
        bordered_cofactor(1.0, [but_2[7], but_2[4], but_2[2], but_2[0]]),
        bordered_cofactor(-1.0, [but_2[6], but_2[3], but_2[1], but_2[0]]),
        bordered_cofactor(1.0, [but_3[8], but_3[5], but_3[2], but_3[1]]),
        bordered_cofactor(-1.0, [but_3[7], but_3[4], but_3[2], but_3[0]]),
        bordered_cofactor(1.0, [but_3[6], but_3[3], but_3[1], but_3[0]]),
        last[0],
        last[1],
        last[2],
    ]
}

// The 15 cofactors of small lengths.
pub fn shared_cofactors(s: &[f64; 10]) -> [f64; 15]
    requires { all_small s.now ≡ true }
    ensures { result ≡ cofactors doubles s.now }
{
    all_fifteen(s, last_three(s))
}
