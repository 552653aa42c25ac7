// fdlibm 5.3's log, log1p, acos, acosh and asinh, bit for bit: one module for each C file, with the
// C's names for its constants and variables. Every public function answers at every double.
#![tactic(auto)]

mod e_acos;
mod e_acosh;
mod e_log;
mod ints;
mod s_asinh;
mod s_log1p;

pub use e_acos::acos;
pub use e_acosh::acosh;
pub use e_log::log;
pub use s_asinh::asinh;
pub use s_log1p::log1p;
