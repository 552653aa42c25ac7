// The local Hessian of the action over a built complex, the whole matrix. Nothing is refused here: functions ask for what a built
// complex with as many lengths as edges gives them (`Measured`, or a part of it). NaN and infinities are lawful lengths.
#![tactic(auto)]

mod matrix;

pub use matrix::write_hessian;
