// What a machine of kernels behind one interrupt pipeline means, and what holds of its whole runs.
#![tactic(auto)]

mod calls;
mod fault;
mod number;
mod promises;
mod shown;

pub use calls::{Answer, Call, Kernel, Place, Question, Reply, StageCall};
pub use fault::{At, Fault, HeadSeat, MachineFault, RootSeat, Seat};
pub use promises::{
    alike_machines_answer_alike, arrivals_are_taken_and_ended, every_list_runs,
    examples_are_played, no_kernel_disturbs_those_ahead, no_request_is_lost_or_doubled,
    promises_hold_of_every_run, pump_counts_the_smaller, pump_is_determined,
    root_disturbs_no_other, routed_means_handled_and_passed, stage_is_a_controller,
    take_is_determined,
};
