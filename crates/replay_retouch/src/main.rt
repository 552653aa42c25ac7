// Replays stored retouches, each line on plain lists and then on records. The numbers of a line are 16 hexadecimal digits each:
// the vertex count with which the complex is built, and the one in the counts of the calls; how many vertices of pentachorons
// follow, at most 40, how many lengths, at most 80, and how many retouches, at most 12; how many deficits and kinds the table
// has, at most 100 each; 0 if it is worked out first; a place of edge_to_pents_items and the number that is put there, if the
// list has that place; a place of the table and the deficit, as bits, and the kind that are put there then, if it has that
// place; the vertices; the squared lengths as bits; for each retouch the edge and the new length as bits. The retouches follow
// each other on one complex, length list and table. For each it prints 0 or the refusal's number, and all lengths, deficits and
// kinds after it. The table of records has 640, of which as many are printed as the other has deficits. A double is its bits or
// nan, a kind its byte. A deficit that isn't worked out first has the bits 50000, a kind the byte 100; a record is then
// Spacelike, and so it is where the byte that is put there is no kind. oracle/retouch made stdin and stdout from the Rust's
// answers and the table of refusals.
#![tactic(auto)]

ghost use Rattle.std.specs.Prelude.{◌+◌, ◌<◌, ◌≤◌, length, IfOk};

use complex::{Complex, Counts};
use hinges::{Hinge, kind_in};
use incidence::EdgeNumber;
use lorentzian::HingeType;
use refusals::number_in;
use replay::{Bits, Doubles, Line, print_lines_of, print_row, put};
use replay_lists::{ListName, Lists};
use std::array;
use std::io::Result;

// ---- reading

// A new length of an edge.
#[derive(Clone, Copy)]
struct Retouch {
    edge: EdgeNumber,
    sq_length: f64,
}

// A line, and what it says before its vertices.
#[derive(Clone, Copy)]
struct Settings<'a> {
    line: Line<'a>,
    // The vertex count with which the complex is built, and the one of the calls.
    built_vertices: usize,
    vertices: usize,
    // How many vertices of pentachorons, lengths and retouches follow.
    given: usize,
    lengths: usize,
    retouches: usize,
    // How many deficits and kinds the table has, and whether it is worked out first.
    deficits: usize,
    kinds: usize,
    is_worked_out: bool,
    // What is put into edge_to_pents_items.
    item_place: usize,
    item: u32,
    // What is put into the table.
    place: usize,
    deficit: f64,
    kind_byte: u8,
    ghost followed: { (given ≤ 40) × (lengths ≤ 80) × (retouches ≤ 12) },
    ghost roomy: { (deficits ≤ 100) × (kinds ≤ 100) },
}

impl<'a> From<Line<'a>> for Settings<'a> {
    fn from(line: Line<'a>) -> Settings<'a> {
        Settings {
            line,
            built_vertices: line.size(0),
            vertices: line.size(1),
            given: line.size(2).min(40),
            lengths: line.size(3).min(80),
            retouches: line.size(4).min(12),
            deficits: line.size(5).min(100),
            kinds: line.size(6).min(100),
            is_worked_out: line.number(7) == 0,
            item_place: line.size(8),
            item: line.entry(9),
            place: line.size(10),
            deficit: line.entry(11),
            kind_byte: (line.number(12) % 256) as u8,
        }
    }
}

impl Settings<'_> {
    // How many numbers the line has.
    fn line_numbers(&self) -> usize
        ensures { (0 < result) × (result < 256) }
    {
        13 + self.given + self.lengths + 2 * self.retouches
    }

    // The squared lengths, and further numbers after them.
    fn sq_lengths(&self) -> [f64; 80] {
        array::from_fn(|i| self.line.entry(13 + self.given + i))
    }

    // The i-th retouch.
    fn retouch(&self, i: usize) -> Retouch
        requires { i < 12 }
    {
        let start = 13 + self.given + self.lengths + 2 * i;
        Retouch {
            edge: EdgeNumber(self.line.entry(start)),
            sq_length: self.line.entry(start + 1),
        }
    }
}

// ---- calls

// The retouches of a line on plain lists, which are worked out and changed first, and what each leaves.
fn print_on_lists(rt: &impl Print, settings: &Settings<'_>, complex: &Complex<'_>) -> Result<()> {
    let mut sq_lengths = settings.sq_lengths();
    let sq_lengths = &mut sq_lengths[..settings.lengths];
    let mut deficits = [floats::of_bits(50000); 100];
    let deficits = &mut deficits[..settings.deficits];
    let mut kinds = [100; 100];
    let kinds = &mut kinds[..settings.kinds];
    if settings.is_worked_out {
        let _ = lorentzian_regge::lorentzian_deficit_angles(complex, sq_lengths, deficits, kinds);
    }
    put(deficits, settings.place, settings.deficit);
    put(kinds, settings.place, settings.kind_byte);
    for i in 0..settings.retouches {
        let Retouch { edge, sq_length } = settings.retouch(i);
        let outcome = retouch::retouch(complex, sq_lengths, edge, sq_length, deficits, kinds);
        println!(rt; "retouch {}", number_in(&outcome))?;
        println!(rt; "lengths{}", Doubles(sq_lengths))?;
        println!(rt; "deficits{}", Doubles(deficits))?;
        print!(rt; "kinds")?;
        print_row(rt, kinds.iter())?;
    }
    Ok(())
}

// The retouches of a line on records, which are worked out and changed first, and what each leaves. A byte that is no kind is Spacelike.
fn print_on_records(rt: &impl Print, settings: &Settings<'_>, complex: &Complex<'_>) -> Result<()> {
    let mut sq_lengths = settings.sq_lengths();
    let sq_lengths = &mut sq_lengths[..settings.lengths];
    let mut table = [Hinge {
        deficit: floats::of_bits(50000),
        kind: HingeType::Spacelike,
    }; 640];
    if settings.is_worked_out {
        let _ = hinge_table::lorentzian_deficit_angles(complex, sq_lengths, &mut table);
    }
    let record = Hinge {
        deficit: settings.deficit,
        kind: kind_in(settings.kind_byte).unwrap_or(HingeType::Spacelike),
    };
    put(&mut table, settings.place, record);
    for i in 0..settings.retouches {
        let Retouch { edge, sq_length } = settings.retouch(i);
        let outcome = hinge_table::retouch(complex, sq_lengths, edge, sq_length, &mut table);
        let shown = &table[..settings.deficits];
        println!(rt; "records {}", number_in(&outcome))?;
        println!(rt; "lengths{}", Doubles(sq_lengths))?;
        print!(rt; "deficits")?;
        print_row(rt, shown.iter().map(|record| Bits(record.deficit)))?;
        print!(rt; "kinds")?;
        print_row(rt, shown.iter().map(|record| record.kind.number()))?;
    }
    Ok(())
}

// ---- complexes

// The answers to a line, if its complex is built.
fn print_built(rt: &impl Print, settings: &Settings<'_>) -> Result<()> {
    let mut given = [0; 40];
    let given = &mut given[..settings.given];
    settings.line.read(13, given);
    // The longest room that 8 pentachorons ask for.
    let mut lists = Lists::<240>::zeros();
    let built = builder::from_pentachorons(settings.built_vertices, given, &mut lists.lend_mut());
    lists.put(
        ListName::EdgeToPentsItems,
        settings.item_place,
        settings.item,
    );
    if let Ok(counts) = built {
        let complex = lists.lend(Counts {
            vertices: settings.vertices,
            ..counts
        });
        print_on_lists(rt, settings, &complex)?;
        print_on_records(rt, settings, &complex)?;
    }
    Ok(())
}

// ---- the text

// The answers to the line that starts at `at`, and where the next line starts.
fn print_line(rt: &impl Print, text: &[u8], at: usize) -> Result<usize>
    requires { at < length text.now }
    ensures { IfOk result (λ next. at < next) }
{
    let settings = Settings::from(Line(&text[at..]));
    print_built(rt, &settings)?;
    Ok(at + 17 * settings.line_numbers())
}

fn main(rt: HostRuntime) -> Result<()> {
    print_lines_of(rt.stdin(), |text, at| print_line(&rt, text, at))
}
