// The ten dihedrals of a pentachoron (lorentzian.rs), and their derivatives by the ten squared lengths, by central differences.
#![tactic(auto)]

mod dihedrals;

ghost use Rattle.std.specs.Prelude.{◌≡◌, ◌<◌, set};
ghost use Rattle.geometry.specs.Determinant.{table};
ghost use Rattle.jacobian.specs.Jacobian.{values, column, entry_of, jacobian};

pub use dihedrals::{all_lorentzian_dihedrals, dihedral_kinds, dihedral_values};

// The numbers of the ten dihedrals with the e-th length set.
#[tactic(auto, unfolding(crate::specs::Jacobian::values))]
fn values_with(s: [f64; 10], e: usize, x: f64) -> [f64; 10]
    requires { e < 10 }
    ensures { result ≡ values (set s e x) }
{
    let mut work = s;
    work[e] = x;
    dihedral_values(all_lorentzian_dihedrals(&work))
}

// The derivatives by the e-th length.
fn jacobian_column(s: &[f64; 10], eps: f64, e: usize) -> [f64; 10]
    requires { e < 10 }
    ensures { result ≡ column s.now eps e }
{
    let old = s[e];
    let plus = values_with(*s, e, old + eps);
    let minus = values_with(*s, e, old - eps);
    let step = 2.0 * eps;
    std::array::from_fn(|k| (plus[k] - minus[k]) / step)
}

// Ten columns as one list, row after row.
fn by_rows(columns: &[[f64; 10]; 10]) -> [f64; 100]
    ensures { result ≡ table 100 (entry_of columns.now) }
{
    std::array::from_fn(|i| columns[i % 10][i / 10])
}

// The derivative of the k-th dihedral by the e-th length at 10 k + e, by central differences with any eps.
pub fn all_lorentzian_dihedrals_jacobian(s: &[f64; 10], eps: f64) -> [f64; 100]
    ensures { result ≡ jacobian s.now eps }
{
    by_rows(&std::array::from_fn(
        |e|
            requires { e < 10 }
            ensures { result ≡ column s.entry.now eps e }
        { jacobian_column(s, eps, e) },
    ))
}
