// The stall layer over any controller.
#![tactic(auto)]

mod layer;

pub use layer::Stall;
