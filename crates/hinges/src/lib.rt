// What the Lorentzian Regge action is made of, by the numbers of triangles and pentachorons: the hinge of one triangle, areas, and
// what a triangle adds to the gradient. Nothing is refused here: functions ask for what a built complex with as many lengths as edges
// gives them (`Measured`, or a part of it). NaN and infinities are lawful lengths. The complex, the numbers of its faces and the lengths
// are parameters of their own: `hinge_at` asks for all of `Measured`, a pass over the pentachorons for no more than `Passable`, and one
// struct for both would ask more of those who call for the pass.
#![tactic(auto)]

mod area;
mod contributions;
mod hinge;
mod pentachoron;
mod triangle;

pub use area::{abs_area, tri_sq_lengths};
pub use contributions::{add_contributions, factor_of};
pub use hinge::{Hinge, byte_of, closed, first, kind_in};
pub use pentachoron::pent_sq_lengths;
pub use triangle::hinge_at;
