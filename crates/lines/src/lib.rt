// Sets of interrupt lines.
#![tactic(auto)]

mod byte;
mod line_set;

pub use byte::{byte_contains, byte_with, byte_without};
pub use line_set::{LineSet, Lines};
