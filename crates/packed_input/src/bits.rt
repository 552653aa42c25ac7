// Numbers spelled by bits. Bit 0 is the most significant of the first byte, and a number's first bit is its most significant.
ghost use Rattle.std.specs.Prelude.{◌≡◌, ℕ, ◌+◌, ◌*◌, ◌^◌, ◌<◌, ◌≤◌, length};
ghost use Rattle.packed_input.specs.Format.{bit_at, field};
ghost use Rattle.packed_input.specs.Numbers.{ReadsNumbers};

// Bit k.
fn bit(input: &[u8], k: usize) -> u64
    requires { k < 8 * length input.now }
    ensures { result ≡ bit_at input.now k }
{
    let byte = u64::from(input[k / 8]);
    let after = 7 - k as u64 % 8;
    (byte >> after) % 2
}

// The number that `width` bits from bit `at` on spell.
pub fn number(input: &[u8], at: usize, width: usize) -> u64
    requires { (at + width ≤ 8 * length input.now) × (width ≤ 64) × (at ≤ 0x1_0000_0000) }
    ensures { (result ≡ field input.now at width) × (result < 2 ^ width) }
{
    let mut n: u64 = 0;
    for i in 0..width {
        n = 2 * n + bit(input, at + i);
    }
    n
}

// Each entry of a list is what is made of a number of `width` bits; the numbers follow each other from bit `at` on.
pub fn read_numbers<T: Copy, F: Fn(u64) -> T>(
    input: &[u8],
    at: usize,
    width: usize,
    list: &mut [T],
    entry: F,
)
    requires inside { (at + width * length list.old ≤ 8 * length input.now) × (width ≤ 64) }
    requires few { (at ≤ 0x1_0000) × (length list.old ≤ 640) }
    requires callable { (n : ℕ) → n < 2 ^ width → F.pre entry n }
    ensures { ReadsNumbers (F.post entry) input.now at width list.old list.new }
{
    for (i, slot) in list.iter_mut().enumerate() {
        *slot = entry(number(input, at + width * i, width));
    }
}
