// The pending log: 64 lines in eight bytes, with an upper byte that tells which of them are not zero.
#![tactic(auto)]

mod bitmap;
mod registers;

pub use bitmap::Bitmap;
pub use registers::{LogRegisters, PendingLog};

#[cfg(test)]
mod tests;
