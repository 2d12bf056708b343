// A stack of levels over places that its caller lends.
#![tactic(auto)]

mod fault;
mod stack;
#[cfg(test)]
mod tests;

pub use fault::StackFault;
pub use stack::LevelStack;
