// The number by which the refusal is listed.
ghost use Rattle.std.specs.Prelude.{◌≡◌};
ghost use Rattle.spl.specs.Faults.{level_fault_number};

use crate::LevelFault;

impl LevelFault {
    // The number of the refusal: one line for each enum of faults, as in crate controller.
    pub fn number(self) -> u8
        ensures { result ≡ level_fault_number self }
    {
        self as u8
    }
}
