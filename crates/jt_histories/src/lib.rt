//! Histories: the entries of a run in the order of their stamps, and the laws of this order.
#![tactic(auto)]

mod cutting;
mod fronts;
mod given;
mod merging;
mod opening;
mod order;
mod world;

pub use cutting::cut_at_main_end;
pub use given::{legal_is_made, legal_is_reached};
pub use merging::merge;
pub use opening::{
    amid_begins, amid_enters, amid_moves, cancel_front, jobs_are_one, made_grows, made_keeps,
    merge_grows,
};
pub use order::{front_is_legal, legal_by_stamps, locality_law, merge_law};
pub use world::{
    entry_keeps, limit_is_met, merge_is_legal, moved_keeps, shut_keeps, start_holds, stuck_is_rest,
    turns_grow,
};
