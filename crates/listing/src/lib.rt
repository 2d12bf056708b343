// The lines of a listing, written into a caller's buffer.
#![tactic(auto)]

mod cursor;
mod listed;
#[cfg(test)]
mod tests;
mod write;

pub use listed::{Listed, ListedPlace, Refusal, ShortBuffer, TraceFault};
pub use write::write_line;
