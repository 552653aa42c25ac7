// Bytes read from an input, a double as text, and lines of values on standard output. No contract can say what is read or written.
#![tactic(auto)]

ghost use Rattle.std.specs.Prelude.{Some, IfOk};
ghost use Rattle.std.specs.Iterator.{IsFinite};
ghost use Rattle.io.specs.Counts.{IsPrefixLen};
ghost use Rattle.printing.specs.Text.{text_of};

use std::fmt;
use std::fmt::Display;
use std::io::{Read, Result};

// ---- reading

// Reads until the buffer is full or the input ends, and answers how many bytes it put at the buffer's beginning. The library has no
// such method without a heap: `read_exact` fails where the input ends.
pub fn read_full(mut input: impl Read + Drop, buffer: &mut [u8]) -> Result<usize>
    ensures { IfOk result (λ len. IsPrefixLen len buffer.new) }
{
    let mut len = 0;
    while len < buffer.len() {
        let n = input.read(&mut buffer[len..])?;
        if n == 0 {
            break;
        }
        len += n;
    }
    Ok(len)
}

// ---- text

// A double as text: its bits as 16 hexadecimal digits, or nan.
#[derive(Clone, Copy)]
pub struct Bits(pub f64);

impl Display for Bits {
    ghost output = { λ x. Some (text_of x.0) };

    fn fmt<W: fmt::Write>(&self, f: &mut fmt::Formatter<W>) -> fmt::Result {
        if floats::is_nan(self.0) {
            return write!(f, "nan");
        }
        let bits = floats::bits_of(self.0);
        write!(f, "{bits:016x}")
    }
}

// ---- lines

// The rest of a line: a space and a value, for each value of a row.
pub fn print_row<T: Display + Drop, I: Iterator<Item = T> + Drop>(
    rt: &impl Print,
    row: I,
) -> Result<()>
    requires can { I.can_next row }
    requires ends { IsFinite (I.remaining row) }
{
    for value in row {
        print!(rt; " {value}")?;
    }
    println!(rt; "")
}
