// s_log1p.c: the logarithm of 1 + x. In the C's own form, beside which it is read, but that C's k is held as k + 1077, which is never
// negative.
ghost use Rattle.std.specs.Prelude.{◌≡◌};
ghost use Rattle.fdlibm.specs.Log1p.{log1p_tail, log1p_scaled, log1p_sum, log1p_wide, log1p_of};

use crate::ints::{dk_of, int_le, int_lt};
use floats::{high_word, low_word, of_words};

// The constants of e_log.c again: each C file has its own, and Lp1 .. Lp7 are its names for Lg1 .. Lg7.
const ln2_hi: f64 = 6.93147180369123816490e-01;

const ln2_lo: f64 = 1.90821492927058770002e-10;

const two54: f64 = 1.80143985094819840000e+16;

const Lp1: f64 = 6.666666666666735130e-01;

const Lp2: f64 = 3.999999999940941908e-01;

const Lp3: f64 = 2.857142874366239149e-01;

const Lp4: f64 = 2.222219843214978396e-01;

const Lp5: f64 = 1.818357216161805012e-01;

const Lp6: f64 = 1.531383769920937332e-01;

const Lp7: f64 = 1.479819860511658591e-01;

const zero: f64 = 0.0;

// From `hfsq=0.5*f*f` on.
#[tactic(auto, unfolding(crate::specs::Log1p::log1p_tail))]
fn log1p_tail(k: u32, hu: u32, f: f64, c: f64) -> f64
    ensures { result ≡ log1p_tail k hu f c }
{
    let dk = dk_of(k);
    let hfsq = 0.5 * f * f;
    if hu == 0 {
        if f == zero {
            if k == 1077 {
                return zero;
            }
            return dk * ln2_hi + (c + dk * ln2_lo);
        }
        let R = hfsq * (1.0 - 0.66666666666666666 * f);
        if k == 1077 {
            return f - R;
        }
        return dk * ln2_hi - ((R - (dk * ln2_lo + c)) - f);
    }
    let s = f / (2.0 + f);
    let z = s * s;
    let R = z * (Lp1 + z * (Lp2 + z * (Lp3 + z * (Lp4 + z * (Lp5 + z * (Lp6 + z * Lp7))))));
    if k == 1077 {
        return f - (hfsq - s * (hfsq + R));
    }
    dk * ln2_hi - ((hfsq - (s * (hfsq + R) + (dk * ln2_lo + c))) - f)
}

// From `hu &= 0x000fffff` on.
#[tactic(auto, unfolding(crate::specs::Log1p::log1p_scaled))]
fn log1p_scaled(u: f64, c: f64) -> f64
    ensures { result ≡ log1p_scaled u c }
{
    let h = high_word(u);
    let lu = low_word(u);
    let k = 54 + h / 0x10_0000;
    let hu = h % 0x10_0000;
    if hu < 0x6_a09e {
        return log1p_tail(k, hu, of_words(hu + 0x3ff0_0000, lu) - 1.0, c);
    }
    log1p_tail(
        k + 1,
        (0x10_0000 - hu) / 4,
        of_words(hu + 0x3fe0_0000, lu) - 1.0,
        c,
    )
}

// Where hx < 0x43400000: u = 1+x, with its correction term.
#[tactic(auto, unfolding(crate::specs::Log1p::log1p_sum))]
fn log1p_sum(x: f64) -> f64
    ensures { result ≡ log1p_sum x }
{
    let u = 1.0 + x;
    if high_word(u) / 0x10_0000 > 1023 {
        return log1p_scaled(u, (1.0 - (u - x)) / u);
    }
    log1p_scaled(u, (x - (u - 1.0)) / u)
}

// From `if (hx >= 0x7ff00000)` on, where k is not 0.
#[tactic(auto, unfolding(crate::specs::Log1p::log1p_wide))]
fn log1p_wide(x: f64) -> f64
    ensures { result ≡ log1p_wide x }
{
    let hx = high_word(x);
    if int_le(0x7ff0_0000, hx) {
        return x + x;
    }
    if int_lt(hx, 0x4340_0000) {
        return log1p_sum(x);
    }
    log1p_scaled(x, 0.0)
}

// The logarithm of 1 + x.
#[tactic(auto, unfolding(crate::specs::Log1p::log1p_of))]
pub fn log1p(x: f64) -> f64
    ensures { result ≡ log1p_of x }
{
    let hx = high_word(x);
    let ax = hx % 0x8000_0000;
    if int_lt(hx, 0x3fda_827a) {
        if ax >= 0x3ff0_0000 {
            if x == -1.0 {
                return -two54 / zero;
            }
            return (x - x) / (x - x);
        }
        if ax < 0x3e20_0000 {
            if two54 + x > zero && ax < 0x3c90_0000 {
                return x;
            }
            return x - x * x * 0.5;
        }
        if int_lt(0, hx) || int_le(hx, 0xbfd2_bec3) {
            return log1p_tail(1077, 1, x, 0.0);
        }
        return log1p_wide(x);
    }
    log1p_wide(x)
}
