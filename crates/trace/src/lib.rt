// A trace: each line is read, obeyed by the machine and its stacks of saved levels, and listed.
#![tactic(auto)]

mod obey;
mod play;
mod saved;
mod session;
mod stepping;

pub use listing::TraceFault;
pub use saved::Saved;
pub use session::{HeadOn, RootOn, Session};
pub use stepping::{Stepped, step, step_running};
