// The optimistic layer over any controller.
#![tactic(auto)]

mod again;
mod layer;

pub use layer::Optimistic;
