// What a raise answers, and why a call is refused.
ghost use Rattle.std.specs.Prelude.{◌≡◌};
ghost use Rattle.controller.specs.Faults.{fault_number};

// Whether the line was pending before: a second request of it merges with the first.
#[derive(Clone, Copy, Debug, PartialEq, Eq)]
pub enum Raised {
    New,
    Merged,
}

// A refused call leaves all that the controller tells. The discriminants are the numbers by which refusals are listed.
#[derive(Clone, Copy, Debug, PartialEq, Eq)]
pub enum ControllerFault {
    // a raise, or asking a level, names a line that the controller lacks
    NoSuchLine = 1,
    // a mask holds a line that the controller lacks
    MaskOutside = 2,
    // an end while no line is in service
    NothingInService = 3,
}

impl ControllerFault {
    // The number of the refusal: one line for each enum of faults, where a trait would need a crate below them all.
    pub fn number(self) -> u8
        ensures { result ≡ fault_number self }
    {
        self as u8
    }
}
