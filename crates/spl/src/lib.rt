// The spl layer over any controller, and the policies of the head and the root kernel.
#![tactic(auto)]

mod fault;
mod head;
mod layer;
mod number;
mod policy;
mod root;

pub use fault::LevelFault;
pub use head::HeadPolicy;
pub use layer::Spl;
pub use policy::Policy;
pub use root::RootPolicy;
