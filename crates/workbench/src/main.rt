// The program: it reads a bit-packed complex with its squared lengths from standard input, and prints its counts, the signs of the
// lengths, its hinges and its gradient, or why the input is refused. All that it prints is in the report.
#![tactic(auto)]

use complex::Counts;
use hinges::kind_in;
use length_signs::LengthSigns;
use lorentzian::HingeType;
use printing::{Bits, read_full};
use report::{Report, evaluate};
use std::io::Result;

// ---- lines

// The counts of edges, triangles and tets, and of timelike, null and spacelike lengths.
fn print_counts(rt: &impl Print, counts: Counts, signs: LengthSigns) -> Result<()> {
    println!(rt;
        "edges {} triangles {} tets {}",
        counts.edges, counts.triangles, counts.tets
    )?;
    println!(rt; "{signs}")
}

// The hinges: number, kind and deficit. Of a built complex each byte is a kind.
fn print_hinges(rt: &impl Print, n_tris: usize, report: &Report) -> Result<()> {
    let hinges = report.kinds.iter().zip(report.deficits.iter());
    for (i, (byte, deficit)) in hinges.take(n_tris).enumerate() {
        let kind = kind_in(*byte).unwrap_or(HingeType::Timelike);
        println!(rt; "hinge {i} {kind} {}", Bits(*deficit))?;
    }
    Ok(())
}

// The gradient: number of the edge and entry.
fn print_gradient(rt: &impl Print, n_edges: usize, report: &Report) -> Result<()> {
    for (i, entry) in report.grad.iter().take(n_edges).enumerate() {
        println!(rt; "grad {i} {}", Bits(*entry))?;
    }
    Ok(())
}

// ---- the program

// The longest input that is not refused has 5,604 bytes, so that a longer one is refused by its beginning.
fn main(rt: HostRuntime) -> Result<()> {
    let mut buffer = [0u8; 8192];
    let len = read_full(rt.stdin(), &mut buffer)?;
    let report = evaluate(&buffer[..len]);
    match report.answer {
        Err(refusal) => println!(&rt; "{refusal}"),
        Ok(counts) => {
            print_counts(&rt, counts, report.signs)?;
            print_hinges(&rt, counts.triangles, &report)?;
            print_gradient(&rt, counts.edges, &report)
        }
    }
}
