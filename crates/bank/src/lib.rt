// Controllers that keep their sets of lines in registers.
#![tactic(auto)]

mod bank;
mod registers;

pub use bank::Bank;
pub use registers::Registers;
