// A pair of 8259 interrupt controllers, the slave on the master's input 2, in special fully nested mode.
#![tactic(auto)]

mod bytes;
mod chips;
mod pair;

pub use chips::{Chip, Chips};
pub use pair::Pair8259;
