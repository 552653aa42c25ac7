// e_log.c: the logarithm. In the C's own form, beside which it is read, but that C's k is held as k + 1077, which is never negative.
ghost use Rattle.std.specs.Prelude.{◌≡◌, ◌<◌};
ghost use Rattle.fdlibm.specs.Log.{log_near, log_far, log_from, log_of};

use crate::ints::{dk_of, int_le, int_lt, words_are};
use floats::{high_word, low_word, of_words};

const ln2_hi: f64 = 6.93147180369123816490e-01;

const ln2_lo: f64 = 1.90821492927058770002e-10;

const two54: f64 = 1.80143985094819840000e+16;

const Lg1: f64 = 6.666666666666735130e-01;

const Lg2: f64 = 3.999999999940941908e-01;

const Lg3: f64 = 2.857142874366239149e-01;

const Lg4: f64 = 2.222219843214978396e-01;

const Lg5: f64 = 1.818357216161805012e-01;

const Lg6: f64 = 1.531383769920937332e-01;

const Lg7: f64 = 1.479819860511658591e-01;

const zero: f64 = 0.0;

// Where |f| < 2**-20.
#[tactic(auto, unfolding(crate::specs::Log::log_near))]
fn log_near(k: u32, f: f64) -> f64
    ensures { result ≡ log_near k f }
{
    let dk = dk_of(k);
    if f == zero {
        if k == 1077 {
            return zero;
        }
        return dk * ln2_hi + dk * ln2_lo;
    }
    let R = f * f * (0.5 - 0.33333333333333333 * f);
    if k == 1077 {
        return f - R;
    }
    dk * ln2_hi - ((R - dk * ln2_lo) - f)
}

// From `s = f/(2.0+f)` on.
#[tactic(auto, unfolding(crate::specs::Log::log_far))]
fn log_far(k: u32, hx: u32, f: f64) -> f64
    ensures { result ≡ log_far k hx f }
{
    let dk = dk_of(k);
    let s = f / (2.0 + f);
    let z = s * s;
    let w = z * z;
    let t1 = w * (Lg2 + w * (Lg4 + w * Lg6));
    let t2 = z * (Lg1 + w * (Lg3 + w * (Lg5 + w * Lg7)));
    let R = t2 + t1;
    if hx >= 0x6147a && hx <= 0x6b851 {
        let hfsq = 0.5 * f * f;
        if k == 1077 {
            return f - (hfsq - s * (hfsq + R));
        }
        return dk * ln2_hi - ((hfsq - (s * (hfsq + R) + dk * ln2_lo)) - f);
    }
    if k == 1077 {
        return f - s * (f - R);
    }
    dk * ln2_hi - ((s * (f - R) - dk * ln2_lo) - f)
}

// From `if (hx >= 0x7ff00000)` on, where C's k is 0 or -54. The argument is C's k + 54, which is below 64.
#[tactic(auto, unfolding(crate::specs::Log::log_from))]
fn log_from(k: u32, x: f64) -> f64
    requires { k < 64 }
    ensures { result ≡ log_from k x }
{
    let h = high_word(x);
    if int_le(0x7ff0_0000, h) {
        return x + x;
    }
    let hx = h % 0x10_0000;
    let i = (hx + 0x9_5f64) / 0x10_0000;
    let f = of_words(hx + 0x3ff0_0000 - i * 0x10_0000, low_word(x)) - 1.0;
    let n = k + h / 0x10_0000 + i;
    if (2 + hx) % 0x10_0000 < 3 {
        return log_near(n, f);
    }
    log_far(n, hx, f)
}

// The logarithm of x.
#[tactic(auto, unfolding(crate::specs::Log::log_of))]
pub fn log(x: f64) -> f64
    ensures { result ≡ log_of x }
{
    let hx = high_word(x);
    if int_lt(hx, 0x0010_0000) {
        if words_are(hx % 0x8000_0000, low_word(x), 0) {
            return -two54 / zero;
        }
        if int_lt(hx, 0) {
            return (x - x) / zero;
        }
        return log_from(0, x * two54);
    }
    log_from(54, x)
}
