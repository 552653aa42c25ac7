// Dihedrals by both rules: from three cofactors, and from two vertices of a pentachoron.
ghost use Rattle.std.specs.Prelude.{◌≡◌, ◌<◌, Float, Some};
ghost use Rattle.lorentzian.specs.Dihedral.{kind_number, kind_text, kind_of, value_of, kind_number_of, ratio_of, of_ratio, of_mixed, compute_dihedral, dihedral_by_root, Gives, dihedral_by, pairs, dihedral_answer, value_or, kind_or};

use fdlibm::{acos, acosh, asinh};
use floats::{abs, clamp_unit, signum};
use geometry::{cm_cofactors, cm_matrix_signed, cofactor_at};
use refusals::Refusal;
use root::root;
use std::fmt;

// ---- the cases

// Kind of a hinge.
#[derive(Clone, Copy, Debug, PartialEq, Eq)]
pub enum HingeType {
    // Its deficit is 2π less the sum of its angles.
    Spacelike,
    // Its deficit is the sum of its boosts, negated.
    Timelike,
}

impl HingeType {
    // 0 for Spacelike, 1 for Timelike: the byte that C takes. A method, since `u8::from(kind)` would not say what the number is.
    pub fn number(self) -> u8
        ensures { result ≡ kind_number self }
    {
        self as u8
    }
}

// As the programs print it: the letter S or T.
impl fmt::Display for HingeType {
    ghost output = { λ kind. Some (kind_text kind) };

    fn fmt<W: fmt::Write>(&self, f: &mut fmt::Formatter<W>) -> fmt::Result {
        f.write_str(match self {
            HingeType::Spacelike => "S",
            HingeType::Timelike => "T",
        })
    }
}

// A dihedral with its one number. Only `kind` and `value` match on it.
#[derive(Clone, Copy, Debug, PartialEq)]
pub enum Dihedral {
    Angle(f64),
    Boost(f64),
}

impl Dihedral {
    // Kind of a hinge with this dihedral.
    pub fn kind(self) -> HingeType
        ensures { result ≡ kind_of self }
    {
        match self {
            Dihedral::Angle(_) => HingeType::Spacelike,
            Dihedral::Boost(_) => HingeType::Timelike,
        }
    }

    // The angle or the boost.
    pub fn value(self) -> f64
        ensures { result ≡ value_of self }
    {
        match self {
            Dihedral::Angle(angle) => angle,
            Dihedral::Boost(boost) => boost,
        }
    }

    // The number of its kind, which C takes.
    pub fn kind_number(self) -> u8
        ensures { result ≡ kind_number_of self }
    {
        self.kind().number()
    }
}

// ---- what both rules share

// Minus c_lm over the root of the product, its sign turned where c_ll is negative.
#[tactic(auto, unfolding(crate::specs::Dihedral::ratio_of))]
fn ratio_of(c_lm: f64, c_ll: f64, denom: f64) -> f64
    ensures { result ≡ ratio_of c_lm c_ll denom }
{
    let sign_corr = if c_ll < 0.0 { -1.0 } else { 1.0 };
    sign_corr * (-c_lm) / denom
}

// The dihedral of a ratio, where both cofactors have the same sign.
#[tactic(auto, unfolding(crate::specs::Dihedral::of_ratio))]
fn of_ratio(ratio: f64) -> Dihedral
    ensures { result ≡ of_ratio ratio }
{
    if abs(ratio) <= 1.0 + 1e-12 {
        return Dihedral::Angle(acos(clamp_unit(ratio)));
    }
    Dihedral::Boost(signum(ratio) * acosh(abs(ratio)))
}

// The dihedral where the product is not positive.
#[tactic(auto, unfolding(crate::specs::Dihedral::of_mixed))]
fn of_mixed(c_lm: f64, denom: f64) -> Dihedral
    ensures { result ≡ of_mixed c_lm denom }
{
    Dihedral::Boost(asinh(-c_lm / denom))
}

// ---- the first rule

// The dihedral of three cofactors, by the rule that tests the product (lorentzian_regge.rs). C passes the three apart.
#[tactic(auto, unfolding(crate::specs::Dihedral::compute_dihedral))]
pub fn compute_dihedral(c_lm: f64, c_ll: f64, c_mm: f64) -> Dihedral
    ensures { result ≡ compute_dihedral c_lm c_ll c_mm }
{
    let product = c_ll * c_mm;
    if abs(product) < 1e-60 {
        return Dihedral::Angle(0.0);
    }
    if 0.0 < product {
        return of_ratio(ratio_of(c_lm, c_ll, root(product)));
    }
    of_mixed(c_lm, root(-product))
}

// ---- the second rule

// The dihedral of three cofactors, by the rule that tests the root (lorentzian.rs).
#[tactic(auto, unfolding(crate::specs::Dihedral::dihedral_by_root))]
pub fn dihedral_by_root(c_lm: f64, c_ll: f64, c_mm: f64) -> Dihedral
    ensures { result ≡ dihedral_by_root c_lm c_ll c_mm }
{
    let product = c_ll * c_mm;
    if 0.0 < product {
        let denom = root(product);
        if denom < 1e-30 {
            return Dihedral::Angle(0.0);
        }
        return of_ratio(ratio_of(c_lm, c_ll, denom));
    }
    let denom = root(abs(product));
    if denom < 1e-30 {
        return Dihedral::Boost(0.0);
    }
    of_mixed(c_lm, denom)
}

// ---- of a pentachoron

// The dihedral of two of a pentachoron's vertices, by a rule.
pub fn dihedral_at<R: Fn(f64, f64, f64) -> Dihedral>(
    s: &[f64; 10],
    l: usize,
    m: usize,
    rule: R,
) -> Dihedral
    requires in_range { (l < 5) × (m < 5) }
    requires callable { R.IsAlwaysCallable rule }
    ensures { (f : Float → Float → Float → Dihedral) → Gives (R.post rule) f → result ≡ dihedral_by f s.now l m }
{
    let cm = cm_matrix_signed(s);
    let c_lm = cofactor_at(&cm, l + 1, m + 1);
    let c_ll = cofactor_at(&cm, l + 1, l + 1);
    let c_mm = cofactor_at(&cm, m + 1, m + 1);
    rule(c_lm, c_ll, c_mm)
}

// The dihedrals of the pairs 01, 02, 03, 04, 12, 13, 14, 23, 24, 34, by a rule.
pub fn ten_dihedrals<R: Fn(f64, f64, f64) -> Dihedral>(s: &[f64; 10], rule: R) -> [Dihedral; 10]
    requires { R.IsAlwaysCallable rule }
    ensures { (f : Float → Float → Float → Dihedral) → Gives (R.post rule) f → result ≡ pairs (dihedral_by f s.now) }
{
    let c = cm_cofactors(s);
    // Written out: loops over the pairs would count two places by hand, and a `map` over a table would list the same ten.
    let c00 = c[0];
    let c11 = c[5];
    let c22 = c[9];
    let c33 = c[12];
    let c44 = c[14];
    [
        rule(c[1], c00, c11),
        rule(c[2], c00, c22),
        rule(c[3], c00, c33),
        rule(c[4], c00, c44),
        rule(c[6], c11, c22),
        rule(c[7], c11, c33),
        rule(c[8], c11, c44),
        rule(c[10], c22, c33),
        rule(c[11], c22, c44),
        rule(c[13], c33, c44),
    ]
}

// The dihedral at the triangle opposite the edge of the vertices l and m, which are not put in order.
// Refused with 11 where either is above 4 or they are the same.
pub fn lorentzian_dihedral(s: &[f64; 10], l: usize, m: usize) -> Result<Dihedral, Refusal>
    ensures { result ≡ dihedral_answer s.now l m }
{
    if 4 < l || 4 < m || l == m {
        return Err(Refusal::BadIndex);
    }
    Ok(dihedral_at(s, l, m, dihedral_by_root))
}

// The number of an answer's dihedral, or `other` for a refusal.
pub fn value_in(answer: &Result<Dihedral, Refusal>, other: f64) -> f64
    ensures { result ≡ value_or answer.now other }
{
    answer.map_or(other, Dihedral::value)
}

// The number of the kind of an answer's dihedral, which C takes, or `other` for a refusal.
pub fn kind_in(answer: &Result<Dihedral, Refusal>, other: u8) -> u8
    ensures { result ≡ kind_or answer.now other }
{
    answer.map_or(other, Dihedral::kind_number)
}
