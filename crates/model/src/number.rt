// The numbers by which refusals are listed.
ghost use Rattle.std.specs.Prelude.{◌≡◌};
ghost use Rattle.model.specs.Refusals.{number_of};

use crate::Fault;

impl Fault {
    // The number of the refusal. A variant that carries a fault has no discriminant, so the other two have none either.
    pub fn number(self) -> u8
        ensures { result ≡ number_of self }
    {
        match self {
            Fault::Controller(fault) => fault.number(),
            Fault::Level(fault) => fault.number(),
            Fault::NotAtStage => 5,
            Fault::OverLimit => 9,
        }
    }
}
