// The calls of lorentzian_regge.rs over a complex, with their refusals: deficits, the action, its gradient. A function that ends in
// `_built` takes a built complex with its incidence lists and does not check it again. NaN and infinities are lawful lengths.
#![tactic(auto)]

mod action;
mod deficits;
mod gradient;

pub use action::{lorentzian_regge_action, lorentzian_regge_action_built};
pub use deficits::{
    lorentzian_deficit_angle, lorentzian_deficit_angle_built, lorentzian_deficit_angles,
    lorentzian_deficit_angles_built,
};
pub use gradient::{lorentzian_regge_action_grad, lorentzian_regge_action_grad_built};
pub use hinges::Hinge;
