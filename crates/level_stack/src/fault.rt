// Why a stack refuses a call.
ghost use Rattle.std.specs.Prelude.{◌≡◌};
ghost use Rattle.level_stack.specs.Faults.{stack_fault_number};

// A refused call changes nothing. The discriminants are the numbers by which refusals are listed.
#[derive(Clone, Copy, Debug, PartialEq, Eq)]
pub enum StackFault {
    // a push while every place is used
    Full = 6,
    // a pop while no place is used
    Empty = 7,
}

impl StackFault {
    // The number of the refusal: one line for each enum of faults, as in crate controller.
    pub fn number(self) -> u8
        ensures { result ≡ stack_fault_number self }
    {
        self as u8
    }
}
