// The ten dihedrals of a pentachoron, and their numbers as plain lists.
ghost use Rattle.std.specs.Prelude.{◌≡◌, map};
ghost use Rattle.lorentzian.specs.Dihedral.{value_of, kind_number_of};
ghost use Rattle.jacobian.specs.Jacobian.{all_dihedrals};

use lorentzian::{Dihedral, dihedral_by_root, ten_dihedrals};

// The ten dihedrals, of the pairs 01, 02, 03, 04, 12, 13, 14, 23, 24, 34.
#[tactic(auto, unfolding(crate::specs::Jacobian::all_dihedrals))]
pub fn all_lorentzian_dihedrals(s: &[f64; 10]) -> [Dihedral; 10]
    ensures { result ≡ all_dihedrals s.now }
{
    ten_dihedrals(s, dihedral_by_root)
}

// ---- ten dihedrals as plain lists, which C is given: a list of numbers and one of kinds

// Their numbers.
pub fn dihedral_values(d: [Dihedral; 10]) -> [f64; 10]
    ensures { result ≡ map value_of d }
{
    d.map(Dihedral::value)
}

// The numbers of their kinds.
pub fn dihedral_kinds(d: [Dihedral; 10]) -> [u8; 10]
    ensures { result ≡ map kind_number_of d }
{
    d.map(Dihedral::kind_number)
}
