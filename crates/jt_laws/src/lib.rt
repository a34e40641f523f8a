//! What a list of entries may be: definitions that several crates share. The code here is
//! functions whose contracts state laws about these definitions.
#![tactic(auto)]

mod channel;
mod lock;
mod object;
mod semaphore;
mod task;

pub use channel::{
    channel_closed_for_good, channel_first_in_first_out, channel_offers_are_entries,
    landed_after_take,
};
pub use lock::{levels_add_up, levels_add_up_over_waits, notify_wakes_oldest, one_task_holds_lock};
pub use object::{longer_is_lawful, reply_is_possible};
pub use semaphore::semaphore_within_count;
pub use task::{fetch_replies_result, task_begins_and_ends_once};
