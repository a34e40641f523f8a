//! What a task of a program does: its meaning is a recursion on its tree and on the turns that are
//! left, and says what comes next after the replies so far. The code here is a task's start.
#![tactic(auto)]

mod start;

pub use start::Start;
