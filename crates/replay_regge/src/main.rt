// Replays stored calls over hinges. The numbers of a line are 16 hexadecimal digits each: the vertex count; how many
// pentachorons follow, at most 8, and how many lengths, at most 80; the lengths of the outputs for deficits, kinds and
// gradient, at most 100; the number of a triangle; a change; of 8 bits each, from the lowest, how many free edges follow, at
// most 12, and the lengths of the outputs for their triangles, deficits, kinds, gradient and Hessian, at most 100; the step
// as bits; the pentachorons, 12 bits for each of five vertices; the squared lengths as bits; the free edges. The complex is
// built and then changed: 16 bits for one of its ten lists, 10 for the counts, 11 for nothing; 16 bits for the place, 32 for
// the number that is put there. For a line it prints what each function answers, 0 or the refusal's number first: all places
// of the outputs of `lorentzian_deficit_angles`, the triangle's hinge, the action, all places of the gradient; then the signs
// of the lengths; then for the free edges the count and all places of the outputs of `local_deficit_angles`, and all places of
// the gradient and of the Hessian. A double is its bits or nan, a kind S, T or, where a byte is none, `-`. Before a call
// place i of an output has the bits 50000 + i, is 50000 + i, or no kind; a refused hinge is printed as T with the bits 50000,
// a refused action as those, a refused count as 50000. oracle/hinges made stdin and stdout from the Rust's answers and the
// table of refusals.
#![tactic(auto)]

ghost use Rattle.std.specs.Prelude.{◌+◌, ◌<◌, ◌≤◌, length, IfOk};

use complex::Complex;
use hinges::{Hinge, kind_in};
use incidence::TriangleNumber;
use lorentzian::HingeType;
use refusals::number_in;
use replay::{Bits, Doubles, Line, fill_pattern, print_lines_of, print_row};
use replay_lists::{Change, Lists};
use std::fmt;
use std::fmt::Display;
use std::io::Result;

// ---- reading

// What a line says before its pentachorons: how many of each kind follow, the lengths of the outputs, and what the calls are given.
#[derive(Clone, Copy)]
struct Settings {
    vertices: usize,
    pents: usize,
    lengths: usize,
    frees: usize,
    deficits: usize,
    kinds: usize,
    grad: usize,
    local_tris: usize,
    local_deficits: usize,
    local_kinds: usize,
    local_grad: usize,
    hessian: usize,
    triangle: TriangleNumber,
    change: Change,
    eps: f64,
    ghost followed: { (pents ≤ 8) × (lengths ≤ 80) × (frees ≤ 12) },
    ghost roomy: { (deficits ≤ 100) × (kinds ≤ 100) × (grad ≤ 100) },
    ghost locally_roomy: { (local_tris ≤ 100) × (local_deficits ≤ 100) × (local_kinds ≤ 100) × (local_grad ≤ 100) × (hessian ≤ 100) },
}

impl From<Line<'_>> for Settings {
    fn from(line: Line<'_>) -> Settings {
        let [
            frees,
            local_tris,
            local_deficits,
            local_kinds,
            local_grad,
            hessian,
            ..
        ] = line.number(8).to_le_bytes().map(usize::from);
        Settings {
            vertices: line.size(0),
            pents: line.size(1).min(8),
            lengths: line.size(2).min(80),
            frees: frees.min(12),
            deficits: line.size(3).min(100),
            kinds: line.size(4).min(100),
            grad: line.size(5).min(100),
            local_tris: local_tris.min(100),
            local_deficits: local_deficits.min(100),
            local_kinds: local_kinds.min(100),
            local_grad: local_grad.min(100),
            hessian: hessian.min(100),
            triangle: TriangleNumber(line.entry(6)),
            change: Change::from(line.number(7)),
            eps: line.entry(9),
        }
    }
}

impl Settings {
    // How many numbers its line has.
    fn line_numbers(self) -> usize
        ensures { (0 < result) × (result < 256) }
    {
        10 + self.pents + self.lengths + self.frees
    }
}

// The vertex at a place of a pentachoron: 12 bits for each of the five.
fn vertex(packed: u64, place: usize) -> u32
    requires { place < 5 }
{
    (packed >> (48 - 12 * place) & 0xfff) as u32
}

// The vertices of a line's pentachorons. Each number is read once: a line of few has few to read.
fn given_of(line: Line<'_>, pents: usize) -> [u32; 40]
    requires { pents ≤ 8 }
{
    let mut given = [0; 40];
    for i in 0..pents {
        let packed = line.number(10 + i);
        for place in 0..5 {
            given[5 * i + place] = vertex(packed, place);
        }
    }
    given
}

// ---- printing

// The letter of a kind, `-` where there is none.
#[derive(Clone, Copy)]
struct Letter(Option<HingeType>);

impl Display for Letter {
    fn fmt<W: fmt::Write>(&self, f: &mut fmt::Formatter<W>) -> fmt::Result {
        match self.0 {
            Some(kind) => write!(f, "{kind}"),
            None => write!(f, "-"),
        }
    }
}

// A line with kinds: bytes, as the calls fill them for C.
fn print_kinds(rt: &impl Print, kinds: &[u8]) -> Result<()> {
    print!(rt; "kinds")?;
    print_row(rt, kinds.iter().map(|byte| Letter(kind_in(*byte))))
}

// ---- calls

// What the calls of a line are given.
#[derive(Clone, Copy)]
struct Given<'c, 'a> {
    settings: Settings,
    complex: Complex<'c>,
    sq_lengths: &'a [f64],
    free_edges: &'a [u32],
}

impl Given<'_, '_> {
    // The deficits and kinds of all triangles.
    fn print_deficits(&self, rt: &impl Print) -> Result<()> {
        let mut deficits = [0.0; 100];
        let deficits = &mut deficits[..self.settings.deficits];
        fill_pattern(deficits);
        let mut kinds = [9; 100];
        let kinds = &mut kinds[..self.settings.kinds];
        let outcome = lorentzian_regge::lorentzian_deficit_angles(
            &self.complex,
            self.sq_lengths,
            deficits,
            kinds,
        );
        println!(rt; "deficits {}{}", number_in(&outcome), Doubles(deficits))?;
        print_kinds(rt, kinds)
    }

    // The hinge of a triangle.
    fn print_hinge(&self, rt: &impl Print) -> Result<()> {
        let answer = lorentzian_regge::lorentzian_deficit_angle(
            &self.complex,
            self.sq_lengths,
            self.settings.triangle,
        );
        let hinge = answer.unwrap_or(Hinge {
            deficit: floats::of_bits(50000),
            kind: HingeType::Timelike,
        });
        println!(rt;
            "hinge {} {} {}",
            number_in(&answer),
            Bits(hinge.deficit),
            Letter(Some(hinge.kind))
        )
    }

    // The action.
    fn print_action(&self, rt: &impl Print) -> Result<()> {
        let answer = lorentzian_regge::lorentzian_regge_action(&self.complex, self.sq_lengths);
        let action = answer.unwrap_or(floats::of_bits(50000));
        println!(rt; "action {} {}", number_in(&answer), Bits(action))
    }

    // The gradient.
    fn print_grad(&self, rt: &impl Print) -> Result<()> {
        let mut grad = [0.0; 100];
        let grad = &mut grad[..self.settings.grad];
        fill_pattern(grad);
        let outcome = lorentzian_regge::lorentzian_regge_action_grad(
            &self.complex,
            self.sq_lengths,
            grad,
        );
        println!(rt; "grad {}{}", number_in(&outcome), Doubles(grad))
    }

    // The signs of the lengths.
    fn print_signs(&self, rt: &impl Print) -> Result<()> {
        println!(rt; "{}", length_signs::length_signs(self.sq_lengths))
    }

    // The triangles on free edges with their deficits and kinds.
    fn print_local_deficits(&self, rt: &impl Print) -> Result<()> {
        let mut tris = [0; 100];
        let tris = &mut tris[..self.settings.local_tris];
        fill_pattern(tris);
        let mut deficits = [0.0; 100];
        let deficits = &mut deficits[..self.settings.local_deficits];
        fill_pattern(deficits);
        let mut kinds = [9; 100];
        let kinds = &mut kinds[..self.settings.local_kinds];
        let answer = local_regge::local_deficit_angles(
            &self.complex,
            self.sq_lengths,
            self.free_edges,
            tris,
            deficits,
            kinds,
        );
        print!(rt; "local {} {}", number_in(&answer), answer.unwrap_or(50000))?;
        print_row(rt, tris.iter())?;
        println!(rt; "deficits{}", Doubles(deficits))?;
        print_kinds(rt, kinds)
    }

    // The gradient at free edges.
    fn print_local_grad(&self, rt: &impl Print) -> Result<()> {
        let mut grad = [0.0; 100];
        let grad = &mut grad[..self.settings.local_grad];
        fill_pattern(grad);
        let outcome = local_regge::local_lorentzian_regge_action_grad(
            &self.complex,
            self.sq_lengths,
            self.free_edges,
            grad,
        );
        println!(rt; "local grad {}{}", number_in(&outcome), Doubles(grad))
    }

    // The Hessian at free edges.
    fn print_hessian(&self, rt: &impl Print) -> Result<()> {
        let mut hessian = [0.0; 100];
        let hessian = &mut hessian[..self.settings.hessian];
        fill_pattern(hessian);
        let outcome = local_regge::local_lorentzian_regge_hessian(
            &self.complex,
            self.sq_lengths,
            self.free_edges,
            self.settings.eps,
            hessian,
        );
        println!(rt; "hessian {}{}", number_in(&outcome), Doubles(hessian))
    }

    // All answers.
    fn print_answers(&self, rt: &impl Print) -> Result<()> {
        self.print_deficits(rt)?;
        self.print_hinge(rt)?;
        self.print_action(rt)?;
        self.print_grad(rt)?;
        self.print_signs(rt)?;
        self.print_local_deficits(rt)?;
        self.print_local_grad(rt)?;
        self.print_hessian(rt)
    }
}

// ---- complexes

// All answers to a line whose complex is built.
fn print_line_answers(
    rt: &impl Print,
    line: Line<'_>,
    settings: Settings,
    complex: Complex<'_>,
) -> Result<()> {
    let after_pents = 10 + settings.pents;
    let mut sq_lengths = [0.0; 80];
    let sq_lengths = &mut sq_lengths[..settings.lengths];
    line.read(after_pents, sq_lengths);
    let mut free_edges = [0; 12];
    let free_edges = &mut free_edges[..settings.frees];
    line.read(after_pents + settings.lengths, free_edges);
    let given = Given {
        settings,
        complex,
        sq_lengths,
        free_edges,
    };
    given.print_answers(rt)
}

// All answers to a line, if its complex is built. Lengths and free edges are read only then.
fn print_built(rt: &impl Print, line: Line<'_>, settings: Settings) -> Result<()> {
    let given = given_of(line, settings.pents);
    // The longest room that 8 pentachorons ask for.
    let mut lists = Lists::<240>::zeros();
    let built = builder::from_pentachorons(
        settings.vertices,
        &given[..5 * settings.pents],
        &mut lists.lend_mut(),
    );
    settings.change.make(&mut lists);
    match built {
        Ok(counts) => {
            let complex = lists.lend(settings.change.counts(counts));
            print_line_answers(rt, line, settings, complex)
        }
        Err(_) => Ok(()),
    }
}

// ---- the text

// The answers to the line that starts at `at`, and where the next line starts.
fn print_line(rt: &impl Print, text: &[u8], at: usize) -> Result<usize>
    requires { at < length text.now }
    ensures { IfOk result (λ next. at < next) }
{
    let line = Line(&text[at..]);
    let settings = Settings::from(line);
    print_built(rt, line, settings)?;
    Ok(at + 17 * settings.line_numbers())
}

fn main(rt: HostRuntime) -> Result<()> {
    print_lines_of(rt.stdin(), |text, at| print_line(&rt, text, at))
}
