// The check of a block, method by method: the number that adds up over the counted bytes, a register of methods 3 and 4 or the
// sums of methods 2 and 7, and questions 18 and 54, whether bytes are the check that such a number stands for. Each function takes
// every input.
#![tactic(auto)]

mod number;
mod sent;

pub use number::{add_one, add_run, add_segment, start_of};
pub use sent::{ask_check, check_from};
