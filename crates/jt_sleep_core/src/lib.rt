//! The protocol by which workers fall asleep beside queues and are woken, as a state machine over
//! single atomic steps on words that all seats share.
#![tactic(auto)]

mod laws;
mod machine;
mod numbering;
mod numbers;
mod place;
mod state;
mod step;

pub use laws::{
    every_run_is_sound, every_step_keeps_soundness, no_run_loses_a_wake_up, own_queues_serve,
};
pub use machine::{Core, NotAllowed};
pub use numbering::{
    heap_count, last_queue, worker_count, worker_line, worker_queues, workers_served,
};
pub use numbers::Numbers;
pub use place::Place;
pub use step::Step;
