// The record of a hinge, and kinds as the bytes of plain lists.
ghost use Rattle.std.specs.Prelude.{◌≡◌};
ghost use Rattle.hinges.specs.Hinges.{byte_of, kind_in, first, closed};

use lorentzian::{Dihedral, HingeType};

const PI: f64 = 3.141592653589793;

// The deficit of a triangle, and its kind.
#[derive(Clone, Copy, Debug, PartialEq)]
pub struct Hinge {
    pub deficit: f64,
    pub kind: HingeType,
}

// The byte of a kind in a list of kinds: the kind's number, or 2 where there is none yet.
// Bytes and no options: the list is lent over the C interface. A function, as `kind_in` is: `From` is not ours to write for u8 and Option.
pub fn byte_of(kind: Option<HingeType>) -> u8
    ensures { result ≡ byte_of kind }
{
    match kind {
        Some(kind) => kind.number(),
        None => 2,
    }
}

// The kind that a byte of such a list stands for.
pub fn kind_in(byte: u8) -> Option<HingeType>
    ensures { result ≡ kind_in byte }
{
    match byte {
        0 => Some(HingeType::Spacelike),
        1 => Some(HingeType::Timelike),
        _ => None,
    }
}

// The kind of a hinge after one dihedral more: the first one decides.
#[tactic(auto, unfolding(crate::specs::Hinges::first))]
pub fn first(kind: Option<HingeType>, dihedral: Dihedral) -> Option<HingeType>
    ensures { result ≡ first kind dihedral }
{
    kind.or(Some(dihedral.kind()))
}

// The hinge of a first kind and a sum; Spacelike where there was no dihedral.
#[tactic(auto, unfolding(crate::specs::Hinges::closed))]
pub fn closed(kind: Option<HingeType>, sum: f64) -> Hinge
    ensures { result ≡ closed kind sum }
{
    let kind = kind.unwrap_or(HingeType::Spacelike);
    let deficit = match kind {
        HingeType::Spacelike => 2.0 * PI - sum,
        HingeType::Timelike => -sum,
    };
    Hinge { deficit, kind }
}
