// What the replay programs share: numbers read from hexadecimal digits, lists filled with them or with a pattern, lines of numbers,
// and rows of doubles as text.
#![tactic(auto)]

ghost use Rattle.std.specs.Prelude.{◌≡◌, ◌+◌, ◌*◌, ◌<◌, map, length, take, set, ℕ, Some, Ok};
ghost use Rattle.std.specs.Float.{binary64};
ghost use Rattle.std.specs.Float.Ieee.{of_bits};
ghost use Rattle.lists.specs.Lists.{upto};
ghost use Rattle.replay.specs.Hexadecimal.{digit_of, number_at};
ghost use Rattle.replay.specs.Texts.{texts_of};
ghost use Rattle.replay.specs.Filled.{Made, word_of, entry_in, pattern_at};

pub use printing::{Bits, print_row, read_full};
use std::fmt;
use std::fmt::Display;
use std::io::{Read, Result};

// ---- numbers

// The value of a hexadecimal digit in lower case, and 0 for any other byte. `char::to_digit` is no plainer: it takes upper case too.
#[tactic(auto, unfolding(crate::specs::Hexadecimal::digit_of))]
fn digit(b: u8) -> u64
    ensures { (result ≡ digit_of b) × (result < 16) }
{
    match b {
        b'0'..=b'9' => u64::from(b - b'0'),
        b'a'..=b'f' => u64::from(b - b'a') + 10,
        _ => 0,
    }
}

// The number that the 16 digits from `at` spell, 0 where they run past the end. `u64::from_str_radix` is no plainer: it refuses
// other bytes, which count as 0 here.
#[tactic(auto, unfolding(crate::specs::Hexadecimal::number_at))]
pub fn number(s: &[u8], at: usize) -> u64
    ensures { result ≡ number_at s.now at }
{
    let Some(rest) = s.get(at..) else { return 0 };
    let Some(digits) = rest.get(..16) else {
        return 0
    };
    digits
        .iter()
        .fold(0, |n, b| n % 0x1000_0000_0000_0000 * 16 + digit(*b))
}

// ---- lists

// What a list can hold: a value for each number. Not `From<u64>`, which is the library's, as u32 and f64 are.
pub trait Entry: Copy {
    ghost of_number: { ℕ → Self };

    fn from_number(n: u64) -> Self
        ensures { result ≡ of_number n };
}

// The lower 32 bits of a number.
impl Entry for u32 {
    ghost of_number = { word_of };

    fn from_number(n: u64) -> u32 {
        (n % 0x1_0000_0000) as u32
    }
}

// The double whose bits are a number.
impl Entry for f64 {
    ghost of_number = { of_bits binary64 };

    fn from_number(n: u64) -> f64 {
        floats::of_bits(n)
    }
}

// Fills a list with what f gives for each place.
fn fill<T: Copy, F: Fn(usize) -> T>(list: &mut [T], f: F)
    requires { (k : ℕ) → k < length list.old → F.pre f k }
    ensures { Made (F.post f) list.old list.new }
{
    for (i, entry) in list.iter_mut().enumerate() {
        *entry = f(i);
    }
}

// Fills a list with the entries of the numbers from `at` on, 17 bytes each.
pub fn read_list<T: Entry>(s: &[u8], at: usize, list: &mut [T])
    requires { at + 17 * length list.old < 0x1_0000_0000 }
    ensures { list.new ≡ map (entry_in T.of_number s.now at) (upto (length list.old)) }
{
    fill(list, |i| T::from_number(number(s, at + 17 * i)));
}

// Fills a list with the pattern that it has before a call.
pub fn fill_pattern<T: Entry>(list: &mut [T])
    ensures { list.new ≡ map (λ i. T.of_number (pattern_at i)) (upto (length list.old)) }
{
    fill(list, |i| T::from_number(50000 + i as u64 % 10000));
}

// The first `n` places of a list, all of them where it has fewer.
pub fn first<T>(list: &[T], n: usize) -> &[T]
    ensures { result.now ≡ take n list.now }
{
    &list[..n.min(list.len())]
}

// Puts a value at a place of a list, where it has that place.
pub fn put<T: Copy>(list: &mut [T], place: usize, value: T)
    ensures { list.new ≡ set list.old place value }
{
    if place < list.len() {
        list[place] = value;
    }
}

// ---- rows

// Doubles as text: each after a space.
#[derive(Clone, Copy)]
pub struct Doubles<'a>(pub &'a [f64]);

impl Display for Doubles<'_> {
    ghost output = { λ row. Some (texts_of row.0.now) };

    fn fmt<W: fmt::Write>(&self, f: &mut fmt::Formatter<W>) -> fmt::Result {
        for x in self.0 {
            let bits = Bits(*x);
            write!(f, " {bits}")?;
        }
        Ok(())
    }
}

// ---- lines

// A line of numbers: 16 digits each, and a byte after them.
#[derive(Clone, Copy)]
pub struct Line<'a>(pub &'a [u8]);

impl Line<'_> {
    // The i-th number.
    pub fn number(self, i: usize) -> u64
        requires { i < 0x1000_0000 }
        ensures { result ≡ number_at self.entry.0.now (17 * i) }
    {
        number(self.0, 17 * i)
    }

    // The i-th number as a size.
    pub fn size(self, i: usize) -> usize
        requires { i < 0x1000_0000 }
        ensures { result ≡ number_at self.entry.0.now (17 * i) }
    {
        self.number(i) as usize
    }

    // The entry of the i-th number.
    pub fn entry<T: Entry>(self, i: usize) -> T
        requires { i < 0x1000_0000 }
        ensures { result ≡ T.of_number (number_at self.entry.0.now (17 * i)) }
    {
        T::from_number(self.number(i))
    }

    // Fills a list with the entries of the i-th number and those after it.
    pub fn read<T: Entry>(self, i: usize, list: &mut [T])
        requires { 17 * (i + length list.old) < 0x1_0000_0000 }
        ensures { list.new ≡ map (entry_in T.of_number self.entry.0.now (17 * i)) (upto (length list.old)) }
    {
        read_list(self.0, 17 * i, list);
    }
}

// Prints the answers to each line of a text of `len` bytes: `print_line` prints those to the line that starts at a place, and answers
// where the next line starts. A `for` would be no plainer: only a line itself says where the next one starts.
pub fn print_lines<F: Fn(usize) -> Result<usize>>(len: usize, print_line: F) -> Result<()>
    requires can { (at : ℕ) → at < len → F.pre print_line at }
    requires advances { (at : ℕ) (next : ℕ) → at < len → F.post print_line at (Ok next) → at < next }
{
    let mut at = 0;
    while at < len {
        at = print_line(at)?;
    }
    Ok(())
}

// Prints the answers to each line of what an input gives, of which 65536 bytes are read, since there is no heap: `print_line` prints
// those to the line that starts at a place of the text, and answers where the next line starts.
pub fn print_lines_of<F: Fn(&[u8], usize) -> Result<usize>>(
    input: impl Read + Drop,
    print_line: F,
) -> Result<()>
    requires can { (text : _) (at : ℕ) → at < length text.now → F.pre print_line text at }
    requires advances { (text : _) (at : ℕ) (next : ℕ) → at < length text.now → F.post print_line text at (Ok next) → at < next }
{
    let mut text = [0u8; 65536];
    let n = read_full(input, &mut text)?;
    let text = &text[..n];
    print_lines(
        n,
        |at|
            requires { F.pre print_line text at }
        { print_line(text, at) },
    )
}
