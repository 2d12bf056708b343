// The interrupt machine: a hardware controller and the stages of two kernels behind one pipeline.
#![tactic(auto)]

mod arrive;
mod calls;
mod machine;
mod phase;
mod play;
mod pump;

pub use machine::Machine;
pub use model::{At, Fault, HeadSeat, MachineFault, RootSeat};
pub use phase::{Asked, Closed, LaidOut, Live, Running};
pub use play::run;
pub use pump::Arrived;
