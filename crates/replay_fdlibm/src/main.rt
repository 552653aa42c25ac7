// Replays stored inputs. For each line of 16 hexadecimal digits on standard input, the bit pattern of a
// double, it prints the answers of the root and of fdlibm's functions: the input's bits, the function's
// name, and the answer's bits, or nan. oracle/fdlibm made stdin and stdout from the C's answers.
#![tactic(auto)]

use replay::Bits;
use std::io::Result;

// What stands for the digits and the end of one line.
const LINE: usize = 17;

// One line: the input's bits, the function's name and its answer.
fn print_answer(rt: &impl Print, input: u64, name: &str, answer: f64) -> Result<()> {
    let bits = Bits(answer);
    println!(rt; "{input:016x} {name} {bits}")
}

// The six lines of one input.
fn print_answers(rt: &impl Print, input: u64) -> Result<()> {
    let x = floats::of_bits(input);
    print_answer(rt, input, "root", root::root(x))?;
    print_answer(rt, input, "log", fdlibm::log(x))?;
    print_answer(rt, input, "log1p", fdlibm::log1p(x))?;
    print_answer(rt, input, "acos", fdlibm::acos(x))?;
    print_answer(rt, input, "acosh", fdlibm::acosh(x))?;
    print_answer(rt, input, "asinh", fdlibm::asinh(x))
}

// The answers to each whole line of the text.
fn print_lines(rt: &impl Print, text: &[u8]) -> Result<()> {
    for line in text.chunks_exact(LINE) {
        print_answers(rt, replay::number(line, 0))?;
    }
    Ok(())
}

fn main(rt: HostRuntime) -> Result<()> {
    let mut text = [0u8; 65536];
    let n = replay::read_full(rt.stdin(), &mut text)?;
    print_lines(&rt, &text[..n])
}
