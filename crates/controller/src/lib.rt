// An interrupt controller by what it tells, and the picking of its first line.
#![tactic(auto)]

mod fault;
mod interface;
mod pick;

pub use fault::{ControllerFault, Raised};
pub use interface::Controller;
pub use pick::{Ranking, first_of, first_over};
