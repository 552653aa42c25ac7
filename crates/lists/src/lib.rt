// Rows of numbers in flat lists: searched by chains, numbered by first meeting, or met in a list as it is. Numbers grouped by
// their places.
#![tactic(auto)]

mod flat_rows;
mod groups;
mod matching;
mod numbering;

pub use flat_rows::FlatRows;
pub use groups::group;
pub use matching::match_rows;
pub use numbering::{copy_row, meet_rows, same_row};
