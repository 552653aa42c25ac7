// The cores for C: calls over a complex that the caller knows to be built, with the edge numbers and triangle numbers of its
// pentachorons; nothing checks it again. A refused call returns the refusal's number, whose place is 0, and changes nothing; an
// answer returns 0. A kind is 0 for Spacelike and 1 for Timelike. Refusals and kinds as numbers, five numbers as counts and a parameter for
// each list stand in every function of this crate's files, as the C interface needs them.
#![tactic(auto)]

mod local;
mod regge;
mod retouching;
