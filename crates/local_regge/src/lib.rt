// The calls of lorentzian_regge.rs at free edges alone, with their refusals: deficits, gradient and Hessian. A function that ends in
// `_built` takes a built complex with its incidence lists and does not check it again. NaN and infinities are lawful lengths.
#![tactic(auto)]

mod local_deficits;
mod local_gradient;
mod local_hessian;

pub use local_deficits::{local_deficit_angles, local_deficit_angles_built};
pub use local_gradient::{
    local_lorentzian_regge_action_grad, local_lorentzian_regge_action_grad_built,
};
pub use local_hessian::{local_lorentzian_regge_hessian, local_lorentzian_regge_hessian_built};
