// e_acos.c: the angle whose cosine is x. In the C's own form, beside which it is read.
ghost use Rattle.std.specs.Prelude.{◌≡◌};
ghost use Rattle.fdlibm.specs.Acos.{ratio_of, acos_above, acos_below, acos_of};

use crate::ints::{int_lt, words_are};
use floats::{high_word, low_word, of_words};
use root::root;

const one: f64 = 1.00000000000000000000e+00;

const pi: f64 = 3.14159265358979311600e+00;

const pio2_hi: f64 = 1.57079632679489655800e+00;

const pio2_lo: f64 = 6.12323399573676603587e-17;

const pS0: f64 = 1.66666666666666657415e-01;

const pS1: f64 = -3.25565818622400915405e-01;

const pS2: f64 = 2.01212532134862925881e-01;

const pS3: f64 = -4.00555345006794114027e-02;

const pS4: f64 = 7.91534994289814532176e-04;

const pS5: f64 = 3.47933107596021167570e-05;

const qS1: f64 = -2.40339491173441421878e+00;

const qS2: f64 = 2.02094576023350569471e+00;

const qS3: f64 = -6.88283971605453293030e-01;

const qS4: f64 = 7.70381505559019352791e-02;

// The C's r = p/q at z.
#[tactic(auto, unfolding(crate::specs::Acos::ratio_of))]
fn ratio(z: f64) -> f64
    ensures { result ≡ ratio_of z }
{
    let p = z * (pS0 + z * (pS1 + z * (pS2 + z * (pS3 + z * (pS4 + z * pS5)))));
    let q = one + z * (qS1 + z * (qS2 + z * (qS3 + z * qS4)));
    p / q
}

// Where x < -0.5.
#[tactic(auto, unfolding(crate::specs::Acos::acos_below))]
fn acos_below(x: f64) -> f64
    ensures { result ≡ acos_below x }
{
    let z = (one + x) * 0.5;
    let s = root(z);
    let r = ratio(z);
    let w = r * s - pio2_lo;
    pi - 2.0 * (s + w)
}

// Where x > 0.5.
#[tactic(auto, unfolding(crate::specs::Acos::acos_above))]
fn acos_above(x: f64) -> f64
    ensures { result ≡ acos_above x }
{
    let z = (one - x) * 0.5;
    let s = root(z);
    let df = of_words(high_word(s), 0);
    let c = (z - df * df) / (s + df);
    let r = ratio(z);
    let w = r * s + c;
    2.0 * (df + w)
}

// The angle whose cosine is x.
#[tactic(auto, unfolding(crate::specs::Acos::acos_of))]
pub fn acos(x: f64) -> f64
    ensures { result ≡ acos_of x }
{
    let hx = high_word(x);
    let ix = hx % 0x8000_0000;
    if ix >= 0x3ff0_0000 {
        if words_are(ix, low_word(x), 0x3ff0_0000) {
            if int_lt(0, hx) {
                return 0.0;
            }
            return pi + 2.0 * pio2_lo;
        }
        return (x - x) / (x - x);
    }
    if ix < 0x3fe0_0000 {
        if ix <= 0x3c60_0000 {
            return pio2_hi + pio2_lo;
        }
        return pio2_hi - (x - (pio2_lo - x * ratio(x * x)));
    }
    if int_lt(hx, 0) {
        return acos_below(x);
    }
    acos_above(x)
}
