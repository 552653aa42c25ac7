// C's int, held as the 32-bit word that it is: its order, its `|`, and its double. In the C's own form, beside which it is read.
ghost use Rattle.std.specs.Prelude.{◌≡◌};
ghost use Rattle.fdlibm.specs.Ints.{◌<ˢ◌, ◌≤ˢ◌, words_are, dk};

// C's a < b.
pub fn int_lt(a: u32, b: u32) -> bool
    ensures { result ≡ (a <ˢ b) }
{
    a.cast_signed() < b.cast_signed()
}

// C's a <= b.
pub fn int_le(a: u32, b: u32) -> bool
    ensures { result ≡ (a ≤ˢ b) }
{
    a.cast_signed() <= b.cast_signed()
}

// C's ((high-h)|low)==0.
#[tactic(auto, unfolding(crate::specs::Ints::words_are))]
pub fn words_are(high: u32, low: u32, h: u32) -> bool
    ensures { result ≡ words_are high low h }
{
    high == h && low == 0
}

// C's (double)k, for the k that is held as k + 1077.
pub fn dk_of(k: u32) -> f64
    ensures { result ≡ dk k }
{
    (i64::from(k) - 1077) as f64
}
