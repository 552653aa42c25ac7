// Replays stored calls over lattices. The numbers of a line are 16 hexadecimal digits each. A line `l` has n_t, n_s and the
// length of the list that is lent to `foliated_hypercubic`. It prints 0 or the refusal's number, the count, which is 77
// where the call is refused, and the list after the call. A line `f` has n_t and n_s; the two sizes of a lattice of at most
// 81 cells, and the vertex count with which its pentachorons are built; the length of the outputs; a spacing and a time
// step as bits; and a change: 16 bits for one of the ten lists that are built, 10 for the counts, 11 for the pentachorons
// before they are built, 12 for nothing; 16 bits for the place, 32 for the number that is put there. It prints 0 or the
// number and the output of `edge_types`, then those of `flat_minkowski_sq_lengths`. A list ends with its checksum; a long
// one is that alone. Before a call place i of a list holds 50000 + i % 10000, of the types 100 + i % 100, and a length has
// the list's number as its bits. oracle/foliation made stdin and stdout from the Rust's answers and the table of refusals.
#![tactic(auto)]

ghost use Rattle.std.specs.Prelude.{◌+◌, ◌<◌, ◌≤◌, length, IfOk};

use complex::Complex;
use foliation::Lattice;
use refusals::number_in;
use replay::{Bits, Line, fill_pattern, first, print_lines_of, put};
use replay_lists::{Change, LentList, Lists, Target};
use std::array;
use std::fmt::Display;
use std::io::Result;

// The longest room that 1944 pentachorons ask for.
const ROOM: usize = 58320;

// ---- reading

// The calls of a line.
#[derive(Clone, Copy)]
enum Calls {
    Listing,
    Edges,
}

impl From<u8> for Calls {
    fn from(letter: u8) -> Calls {
        match letter {
            b'l' => Calls::Listing,
            _ => Calls::Edges,
        }
    }
}

impl Calls {
    // The length of their line.
    fn line_len(self) -> usize
        ensures { (0 < result) × (result < 256) }
    {
        match self {
            Calls::Listing => 53,
            Calls::Edges => 155,
        }
    }
}

// What a line `f` says.
#[derive(Clone, Copy)]
struct Settings {
    // The lattice of the calls.
    lattice: Lattice,
    // The lattice whose pentachorons are built, and the vertex count with which they are.
    built: Lattice,
    vertices: usize,
    // The length of the outputs.
    room: usize,
    spacing: f64,
    dt: f64,
    change: Change,
    ghost roomy: { room ≤ 2000 },
}

impl From<Line<'_>> for Settings {
    fn from(line: Line<'_>) -> Settings {
        Settings {
            lattice: Lattice {
                n_t: line.size(0),
                n_s: line.size(1),
            },
            built: Lattice {
                n_t: line.size(2),
                n_s: line.size(3),
            },
            vertices: line.size(4),
            room: line.size(5).min(2000),
            spacing: line.entry(6),
            dt: line.entry(7),
            change: Change::from(line.number(8)),
        }
    }
}

// ---- printing

// What is printed with a checksum.
trait Summed: Display {
    // The checksum with this added.
    fn added(&self, sum: u64) -> u64;
}

// A checksum with the lower 32 bits of a number added.
fn mixed(sum: u64, n: u64) -> u64 {
    (sum % 0x1_0000_0000 * 1000003 + n % 0x1_0000_0000) % 4294967291
}

impl Summed for u32 {
    fn added(&self, sum: u64) -> u64 {
        mixed(sum, u64::from(*self))
    }
}

// A double's bits, the upper 32 first.
impl Summed for Bits {
    fn added(&self, sum: u64) -> u64 {
        let bits = floats::bits_of(self.0);
        mixed(mixed(sum, bits / 0x1_0000_0000), bits)
    }
}

// The rest of a line: the values of a row, where there are at most `most` of them, and their checksum.
fn print_summed<T: Summed + Drop, I: ExactSizeIterator<Item = T> + Drop>(
    rt: &impl Print,
    row: I,
    most: usize,
) -> Result<()>
    requires can { I.can_next row }
{
    let whole = row.len() <= most;
    let mut sum = 0;
    for value in row {
        if whole {
            print!(rt; " {value}")?;
        }
        sum = value.added(sum);
    }
    println!(rt; " sum {sum}")
}

// ---- listing

// The answer to a line `l`.
fn print_listing(rt: &impl Print, line: Line<'_>) -> Result<()> {
    let lattice = Lattice {
        n_t: line.size(0),
        n_s: line.size(1),
    };
    let mut pents = LentList::<50000>::patterned(line.size(2));
    let listed = foliation::foliated_hypercubic(lattice, pents.lend_mut());
    println!(rt; "listed {} {}", number_in(&listed), listed.unwrap_or(77))?;
    print!(rt; "pents")?;
    print_summed(rt, pents.lend().iter().copied(), 2000)
}

// ---- edges

// The types of a line `f`: bytes, as the call fills them for C.
fn print_edge_types(rt: &impl Print, settings: &Settings, complex: &Complex<'_>) -> Result<()> {
    let mut types: [u8; 2000] = array::from_fn(|i| 100 + (i % 100) as u8);
    let types = &mut types[..settings.room];
    let outcome = lattice_edges::edge_types(settings.lattice, complex, types);
    print!(rt; "types {}", number_in(&outcome))?;
    print_summed(rt, types.iter().map(|edge_type| u32::from(*edge_type)), 400)
}

// The lengths of a line `f`.
fn print_sq_lengths(rt: &impl Print, settings: &Settings, complex: &Complex<'_>) -> Result<()> {
    let mut lengths = [0.0; 2000];
    let lengths = &mut lengths[..settings.room];
    fill_pattern(lengths);
    let outcome = lattice_edges::flat_minkowski_sq_lengths(
        settings.lattice,
        complex,
        settings.spacing,
        settings.dt,
        lengths,
    );
    print!(rt; "lengths {}", number_in(&outcome))?;
    print_summed(rt, lengths.iter().map(|x| Bits(*x)), 400)
}

// Both answers to a line `f` whose pentachorons are given, if they are built.
fn print_built(rt: &impl Print, settings: &Settings, given: &[u32]) -> Result<()> {
    let mut lists = Lists::<ROOM>::zeros();
    let built = builder::from_pentachorons(settings.vertices, given, &mut lists.lend_mut());
    settings.change.make(&mut lists);
    if let Ok(counts) = built {
        let complex = lists.lend(settings.change.counts(counts));
        print_edge_types(rt, settings, &complex)?;
        print_sq_lengths(rt, settings, &complex)?;
    }
    Ok(())
}

// Both answers to a line `f`.
fn print_edges(rt: &impl Print, settings: &Settings) -> Result<()> {
    let Change { target, place, n } = settings.change;
    let mut given = [0; ROOM];
    let listed = foliation::foliated_hypercubic(settings.built, &mut given);
    if target == Target::Further {
        put(&mut given, place, n);
    }
    if let Ok(count) = listed {
        print_built(rt, settings, first(&given, 5 * count.min(1944)))?;
    }
    Ok(())
}

// ---- the text

// The answers to the line that starts at `at`, and where the next line starts.
fn print_line(rt: &impl Print, text: &[u8], at: usize) -> Result<usize>
    requires { at < length text.now }
    ensures { IfOk result (λ next. at < next) }
{
    let calls = Calls::from(text[at]);
    let line = Line(text.get(at + 2..).unwrap_or(&[]));
    match calls {
        Calls::Listing => print_listing(rt, line)?,
        Calls::Edges => print_edges(rt, &Settings::from(line))?,
    }
    Ok(at + calls.line_len())
}

fn main(rt: HostRuntime) -> Result<()> {
    print_lines_of(rt.stdin(), |text, at| print_line(&rt, text, at))
}
