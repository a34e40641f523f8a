//! Where the parser stands among the tokens of a script, what it takes there by one token or a list
//! of like parts, and what it asks of a part that it has read.
#![tactic(auto)]

mod comma;
mod cursor;
mod failure;
mod lines;
mod operator;
mod targets;

pub use comma::comma_list;
pub use cursor::{Cursor, Kind, ends, is_jump, is_separator, is_spelled};
pub use failure::Failure;
pub use lines::join;
pub use operator::{operator_in, power_sign, unary_sign};
pub use targets::{is_sum, name_of, step_target, target};
