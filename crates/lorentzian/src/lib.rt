// Lorentzian geometry of a pentachoron (lorentzian.rs): areas of its triangles and its dihedrals by
// both rules, from ten signed squared lengths in the order 01, 02, 03, 04, 12, 13, 14,
// 23, 24, 34. No function that C calls has a `requires`; NaN and infinities are lawful lengths.
#![tactic(auto)]

// Public, so that a crate above can pass a rule by its name.
pub mod dihedral;
mod triangle;

pub use dihedral::{
    Dihedral, HingeType, compute_dihedral, dihedral_at, dihedral_by_root, kind_in,
    lorentzian_dihedral, ten_dihedrals, value_in,
};
pub use triangle::{
    edge_idx, tri_area_sq_grad_in_pent, triangle_area_sq_grad, triangle_area_sq_lorentzian,
};
