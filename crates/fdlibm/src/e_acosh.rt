// e_acosh.c: the inverse of the hyperbolic cosine. In the C's own form, beside which it is read.
ghost use Rattle.std.specs.Prelude.{◌≡◌};
ghost use Rattle.fdlibm.specs.Acosh.{acosh_of};

use crate::e_log::log;
use crate::ints::{int_le, int_lt, words_are};
use crate::s_log1p::log1p;
use floats::{high_word, low_word};
use root::root;

const one: f64 = 1.0;

const ln2: f64 = 6.93147180559945286227e-01;

// The inverse of the hyperbolic cosine at x.
#[tactic(auto, unfolding(crate::specs::Acosh::acosh_of))]
pub fn acosh(x: f64) -> f64
    ensures { result ≡ acosh_of x }
{
    let hx = high_word(x);
    if int_lt(hx, 0x3ff0_0000) {
        return (x - x) / (x - x);
    }
    if int_le(0x41b0_0000, hx) {
        if int_le(0x7ff0_0000, hx) {
            return x + x;
        }
        return log(x) + ln2;
    }
    if words_are(hx, low_word(x), 0x3ff0_0000) {
        return 0.0;
    }
    if int_lt(0x4000_0000, hx) {
        let t = x * x;
        return log(2.0 * x - one / (x + root(t - one)));
    }
    let t = x - one;
    log1p(t + root(2.0 * t + t * t))
}
