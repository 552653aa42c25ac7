// What the program answers for its input: the counts of the complex or the refusal, the signs of the squared lengths, the hinges
// and the gradient.
#![tactic(auto)]

ghost use Rattle.std.specs.Prelude.{◌≡◌, true, ◌≤◌, length};
ghost use Rattle.lists.specs.Rows.{over};
ghost use Rattle.length_signs.specs.LengthSigns.{signs_of};
ghost use Rattle.complex.specs.Check.{is_built};
ghost use Rattle.complex.specs.Lent.{lists_of};
ghost use Rattle.hinges.specs.Hinges.{faces_of, hinges, deficits_of, kinds_of};
ghost use Rattle.hinges.specs.Action.{gradient};
ghost use Rattle.report.specs.Report.{Evaluable, Evaluates, Reports};

use complex::{Complex, Counts};
use length_signs::{LengthSigns, length_signs};
use lorentzian_regge::{lorentzian_deficit_angles, lorentzian_regge_action_grad};
use packed_input::decode;
use refusals::Refusal;

// The counts of the complex or the refusal; the counts of signs; for each triangle its deficit and the byte of its kind, for each
// edge its gradient entry. What is not written is zero, and all is where the input is refused.
// Deficits and kinds are two lists and no list of hinges: `Reports` speaks of two, as the call writes them that works all triangles out
// in one pass, for C; `hinge_table` works out each triangle by itself.
#[derive(Clone, Copy)]
pub struct Report {
    pub answer: Result<Counts, Refusal>,
    pub signs: LengthSigns,
    pub deficits: [f64; 640],
    pub kinds: [u8; 640],
    pub grad: [f64; 640],
}

// The signs of a built complex's lengths, its hinges and its gradient.
fn evaluate_built(
    complex: &Complex<'_>,
    sq_lengths: &[f64],
    deficits: &mut [f64],
    kinds: &mut [u8],
    grad: &mut [f64],
) -> LengthSigns
    requires { Evaluable complex.now.counts (lists_of complex.now)
        (length sq_lengths.now) (length deficits.old) (length kinds.old) (length grad.old) }
    ensures { Evaluates (faces_of complex.now) sq_lengths.now
        deficits.old kinds.old grad.old result deficits.new kinds.new grad.new }
{
    let _deficits = lorentzian_deficit_angles(complex, sq_lengths, deficits, kinds);
    let _gradient = lorentzian_regge_action_grad(complex, sq_lengths, grad);
    length_signs(sq_lengths)
}

// Evaluates the program's input. A refused input has no signs, hinges and gradient.
pub fn evaluate(input: &[u8]) -> Report
    ensures { Reports input.now result.answer result.signs result.deficits result.kinds result.grad }
{
    let decoded = decode(input);
    let mut report = Report {
        answer: decoded.answer,
        signs: LengthSigns::default(),
        deficits: [0.0; 640],
        kinds: [0; 640],
        grad: [0.0; 640],
    };
    match decoded.answer {
        Err(_) => report,
        Ok(counts) => {
            let complex = decoded.lists.complex(counts);
            report.signs = evaluate_built(
                &complex,
                &decoded.sq_lengths[..counts.edges],
                &mut report.deficits,
                &mut report.kinds,
                &mut report.grad,
            );
            report
        }
    }
}
