// A kernel's stage of the interrupt pipeline.
#![tactic(auto)]

mod ahead;
mod arrive;
mod layers;
mod stage;
mod told;

pub use ahead::{Hindrance, standing};
pub use arrive::{deliver, pass};
pub use layers::on;
pub use stage::Stage;
pub use told::told_by;
