// The vectored interrupt controller: 64 lines in four classes, each line with a vector of its own.
#![tactic(auto)]

mod registers;

pub use registers::{Vectored, VectoredRegisters};

#[cfg(test)]
mod tests;
