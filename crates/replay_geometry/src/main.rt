// Replays stored simplexes and cofactors. A line `p` has ten squared lengths and a step, a line `d` three
// cofactors, as bit patterns in hexadecimal. For a simplex it prints its cofactors, areas, dihedrals and
// their Jacobian, for three cofactors their dihedral by the first rule: bits or nan, and S or T for a kind.
// oracle/regge made stdin and stdout from the Rust's answers.
#![tactic(auto)]

ghost use Rattle.std.specs.Prelude.{◌+◌, ◌<◌, length, IfOk};

use lorentzian::{Dihedral, edge_idx, triangle_area_sq_lorentzian};
use replay::{Bits, Doubles, Line, print_lines_of, print_row};
use std::fmt::Display;
use std::io::Result;
use std::{array, fmt};

// ---- reading

// What a line gives.
#[derive(Clone, Copy)]
enum Given {
    Simplex,
    Cofactors,
}

impl From<u8> for Given {
    fn from(letter: u8) -> Given {
        match letter {
            b'p' => Given::Simplex,
            _ => Given::Cofactors,
        }
    }
}

impl Given {
    // The length of its line.
    fn line_len(self) -> usize
        ensures { (0 < result) × (result < 256) }
    {
        match self {
            Given::Simplex => 189,
            Given::Cofactors => 53,
        }
    }
}

// ---- printing

// A dihedral's number, and the letter of its kind.
#[derive(Clone, Copy)]
struct Shown(Dihedral);

impl Display for Shown {
    fn fmt<W: fmt::Write>(&self, f: &mut fmt::Formatter<W>) -> fmt::Result {
        let number = Bits(self.0.value());
        let kind = self.0.kind();
        write!(f, "{number} {kind}")
    }
}

// ---- a simplex

// The 15 cofactors at once, then all 36, row after row.
fn print_cofactors(rt: &impl Print, s: &[f64; 10]) -> Result<()> {
    println!(rt; "cofactors{}", Doubles(&geometry::cm_cofactors(s)))?;
    let m = geometry::cm_matrix_signed(s);
    for row in 0..6 {
        let cofactors: [f64; 6] = array::from_fn(|col| geometry::cofactor_6x6(
            &m, row, col,
        ).unwrap_or(0.0));
        println!(rt; "row {row}{}", Doubles(&cofactors))?;
    }
    Ok(())
}

// The squared area of a triangle and its gradient by the ten squared lengths.
fn print_triangle(rt: &impl Print, s: &[f64; 10], a: usize, b: usize, c: usize) -> Result<()>
    requires { (a < b) × (b < c) × (c < 5) }
{
    let area = triangle_area_sq_lorentzian(s[edge_idx(a, b)], s[edge_idx(a, c)], s[edge_idx(b, c)]);
    let grad = lorentzian::tri_area_sq_grad_in_pent(s, [a, b, c]).unwrap_or([0.0; 10]);
    println!(rt; "triangle {a}{b}{c} {}{}", Bits(area), Doubles(&grad))
}

// The ten triangles.
fn print_triangles(rt: &impl Print, s: &[f64; 10]) -> Result<()> {
    for a in 0..5 {
        for b in a + 1..5 {
            for c in b + 1..5 {
                print_triangle(rt, s, a, b, c)?;
            }
        }
    }
    Ok(())
}

// The dihedral of l and m, which is none where they are the same.
fn print_pair(rt: &impl Print, s: &[f64; 10], l: usize, m: usize) -> Result<()> {
    match lorentzian::lorentzian_dihedral(s, l, m) {
        Ok(dihedral) => println!(rt; "dihedral {l} {m} {}", Shown(dihedral)),
        Err(_) => Ok(()),
    }
}

// The dihedrals of all pairs, and the ten of the pairs in order.
fn print_dihedrals(rt: &impl Print, s: &[f64; 10]) -> Result<()> {
    for l in 0..5 {
        for m in 0..5 {
            print_pair(rt, s, l, m)?;
        }
    }
    print!(rt; "all")?;
    print_row(
        rt,
        jacobian::all_lorentzian_dihedrals(s)
            .iter()
            .map(|d| Shown(*d)),
    )
}

// The rows of the Jacobian.
fn print_jacobian(rt: &impl Print, s: &[f64; 10], eps: f64) -> Result<()> {
    let derivatives = jacobian::all_lorentzian_dihedrals_jacobian(s, eps);
    for (k, row) in derivatives.chunks_exact(10).enumerate() {
        println!(rt; "jacobian {k}{}", Doubles(row))?;
    }
    Ok(())
}

// All answers to a simplex.
fn print_simplex(rt: &impl Print, s: &[f64; 10], eps: f64) -> Result<()> {
    print_cofactors(rt, s)?;
    print_triangles(rt, s)?;
    print_dihedrals(rt, s)?;
    print_jacobian(rt, s, eps)
}

// ---- the text

// The answers to the line that starts at `at`, and where the next line starts.
fn print_line(rt: &impl Print, text: &[u8], at: usize) -> Result<usize>
    requires { at < length text.now }
    ensures { IfOk result (λ next. at < next) }
{
    let given = Given::from(text[at]);
    let line = Line(text.get(at + 2..).unwrap_or(&[]));
    match given {
        Given::Simplex => {
            let s = array::from_fn(|i| line.entry(i));
            print_simplex(rt, &s, line.entry(10))?;
        }
        Given::Cofactors => {
            let dihedral = lorentzian::compute_dihedral(
                line.entry(0),
                line.entry(1),
                line.entry(2),
            );
            println!(rt; "compute {}", Shown(dihedral))?;
        }
    }
    Ok(at + given.line_len())
}

fn main(rt: HostRuntime) -> Result<()> {
    print_lines_of(rt.stdin(), |text, at| print_line(&rt, text, at))
}
