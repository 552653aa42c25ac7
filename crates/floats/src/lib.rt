// Rust's methods on f64 that the port calls, and the bit pattern and the two words of a double.
// Every function answers at every double.
#![tactic(auto)]

ghost use Rattle.std.specs.Prelude.{◌≡◌};
ghost use Rattle.std.specs.Float.{binary64};
ghost use Rattle.std.specs.Float.Ieee.{is_nan, to_bits, of_bits};
ghost use Rattle.floats.specs.Methods.{abs_of, signum_of, clamp_unit_of};
ghost use Rattle.floats.specs.Words.{high_word, low_word, of_words};

// The weight of a pattern's sign.
const SIGN: u64 = 0x8000_0000_0000_0000;

// The pattern of infinity; what is above it, the sign aside, is a NaN's.
const INFINITY: u64 = 0x7ff0_0000_0000_0000;

// The one pattern that `bits_of` gives for every NaN.
const NAN: u64 = 0x7ff8_0000_0000_0000;

// The weight of the upper word.
const WORD: u64 = 0x1_0000_0000;

// Rust's x.is_nan(): the library's method, under the name that clauses and callers cite.
pub fn is_nan(x: f64) -> bool
    ensures { result ≡ is_nan x }
{
    x.is_nan()
}

// x's bit pattern, with one pattern for every NaN. The library's method may not be called at a NaN.
pub fn bits_of(x: f64) -> u64
    ensures { result ≡ to_bits binary64 x }
{
    if x.is_nan() { NAN } else { x.to_bits() }
}

// The double of a bit pattern, a NaN's pattern too.
pub fn of_bits(n: u64) -> f64
    ensures { result ≡ of_bits binary64 n }
{
    if n % SIGN > INFINITY {
        f64::NAN
    } else {
        f64::from_bits(n)
    }
}

// The upper 32 bits of x's pattern.
#[tactic(auto, unfolding(crate::specs::Words::high_word))]
pub fn high_word(x: f64) -> u32
    ensures { result ≡ high_word x }
{
    (bits_of(x) / WORD) as u32
}

// The lower 32 bits of x's pattern.
#[tactic(auto, unfolding(crate::specs::Words::low_word))]
pub fn low_word(x: f64) -> u32
    ensures { result ≡ low_word x }
{
    (bits_of(x) % WORD) as u32
}

// The double of two words.
#[tactic(auto, unfolding(crate::specs::Words::of_words))]
pub fn of_words(high: u32, low: u32) -> f64
    ensures { result ≡ of_words high low }
{
    of_bits(u64::from(high) * WORD + u64::from(low))
}

// Rust's x.abs().
#[tactic(auto, using(crate::proofs::Patterns::abs_is))]
pub fn abs(x: f64) -> f64
    ensures { result ≡ abs_of x }
{
    x.abs()
}

// Rust's x.signum(): -1.0 for -0.0.
#[tactic(auto, using(crate::proofs::Patterns::signum_is))]
pub fn signum(x: f64) -> f64
    ensures { result ≡ signum_of x }
{
    x.signum()
}

// Rust's x.clamp(-1.0, 1.0).
#[tactic(auto, unfolding(crate::specs::Methods::clamp_unit_of))]
pub fn clamp_unit(x: f64) -> f64
    ensures { result ≡ clamp_unit_of x }
{
    x.clamp(-1.0, 1.0)
}
