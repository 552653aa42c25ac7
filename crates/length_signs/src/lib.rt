// How many squared lengths are timelike, null and spacelike.
#![tactic(auto)]

ghost use Rattle.std.specs.Prelude.{◌≡◌, ◌+◌, ◌^◌, ◌<◌, Some};
ghost use Rattle.length_signs.specs.LengthSigns.{signs_of};
ghost use Rattle.length_signs.specs.Parts.{with_length};
ghost use Rattle.length_signs.specs.Text.{signs_text};

use std::fmt;

// Counts of lengths below zero, of either zero, and of all others, NaN among them.
#[derive(Clone, Copy, Default)]
pub struct LengthSigns {
    pub timelike: usize,
    pub null: usize,
    pub spacelike: usize,
}

// As the programs print them: each count after its name.
impl fmt::Display for LengthSigns {
    ghost output = { λ signs. Some (signs_text signs) };

    fn fmt<W: fmt::Write>(&self, f: &mut fmt::Formatter<W>) -> fmt::Result {
        write!(
            f,
            "timelike {} null {} spacelike {}",
            self.timelike, self.null, self.spacelike
        )
    }
}

// The counts with one length more.
fn with_length(signs: LengthSigns, s: f64) -> LengthSigns
    requires { (signs.timelike + 1 < 2 ^ 64) × (signs.null + 1 < 2 ^ 64) × (signs.spacelike + 1 < 2 ^ 64) }
    ensures { result ≡ with_length signs s }
{
    // Each case returns: of cases that are joined the compiler makes code that takes a third longer where all lengths are spacelike.
    if s < 0.0 {
        return LengthSigns {
            timelike: signs.timelike + 1,
            ..signs
        };
    }
    if s == 0.0 {
        return LengthSigns {
            null: signs.null + 1,
            ..signs
        };
    }
    LengthSigns {
        spacelike: signs.spacelike + 1,
        ..signs
    }
}

// The counts of a list.
pub fn length_signs(sq_lengths: &[f64]) -> LengthSigns
    ensures { result ≡ signs_of sq_lengths.now }
{
    let mut signs = LengthSigns::default();
    for s in sq_lengths {
        signs = with_length(signs, *s);
    }
    signs
}
