// s_asinh.c: the inverse of the hyperbolic sine. In the C's own form, beside which it is read.
ghost use Rattle.std.specs.Prelude.{◌≡◌};
ghost use Rattle.fdlibm.specs.Asinh.{asinh_size, asinh_of};

use crate::e_log::log;
use crate::ints::int_lt;
use crate::s_log1p::log1p;
use floats::{abs, high_word};
use root::root;

const one: f64 = 1.00000000000000000000e+00;

const ln2: f64 = 6.93147180559945286227e-01;

const huge: f64 = 1.00000000000000000000e+300;

// The C's w, the size of the result.
#[tactic(auto, unfolding(crate::specs::Asinh::asinh_size))]
fn asinh_size(x: f64) -> f64
    ensures { result ≡ asinh_size x }
{
    let ix = high_word(x) % 0x8000_0000;
    if ix > 0x41b0_0000 {
        return log(abs(x)) + ln2;
    }
    if ix > 0x4000_0000 {
        let t = abs(x);
        return log(2.0 * t + one / (root(x * x + one) + t));
    }
    let t = x * x;
    log1p(abs(x) + t / (one + root(one + t)))
}

// The inverse of the hyperbolic sine at x.
#[tactic(auto, unfolding(crate::specs::Asinh::asinh_of))]
pub fn asinh(x: f64) -> f64
    ensures { result ≡ asinh_of x }
{
    let hx = high_word(x);
    let ix = hx % 0x8000_0000;
    if ix >= 0x7ff0_0000 {
        return x + x;
    }
    if ix < 0x3e30_0000 && huge + x > one {
        return x;
    }
    let w = asinh_size(x);
    if int_lt(0, hx) {
        return w;
    }
    -w
}
