// Why a call of the machine is refused, and where.
ghost use Rattle.std.specs.Prelude.{◌≡◌};
ghost use Rattle.model.specs.declared.calls.Kernel.{Kernel as kernel_of_the_machine};
ghost use Rattle.model.specs.declared.calls.Kernel.TheVariants.{Head as head, Root as root};
ghost use Rattle.model.specs.declared.calls.Place.TheVariants.{Hardware as hardware, Kernel as kernel};
ghost use Rattle.model.specs.declared.fault.Fault.TheVariants.{Controller, Level};

use crate::{Kernel, Place};
use controller::ControllerFault;
use spl::LevelFault;
use std::marker::PhantomData;

// A refused call leaves the machine as it was.
#[derive(Clone, Copy, Debug, PartialEq, Eq)]
pub enum Fault {
    // the controller's own
    Controller(ControllerFault),
    // the stage's, of a level
    Level(LevelFault),
    // a route lets a kernel handle a line that its stage lacks
    NotAtStage,
    // a pump of more lines than its limit
    OverLimit,
}

#[derive(Clone, Copy, Debug, PartialEq, Eq)]
pub struct MachineFault {
    pub fault: Fault,
    pub place: Place,
}

// A kernel as a type, by which a refusal at its stage gets its place.
pub trait Seat {
    ghost kernel: { kernel_of_the_machine };

    // The kernel.
    fn kernel() -> Kernel
        ensures { result ≡ kernel };
}

// The head kernel.
#[derive(Clone, Copy, Debug, PartialEq, Eq)]
pub struct HeadSeat;

impl Seat for HeadSeat {
    ghost kernel = { head };

    fn kernel() -> Kernel {
        Kernel::Head
    }
}

// The root kernel.
#[derive(Clone, Copy, Debug, PartialEq, Eq)]
pub struct RootSeat;

impl Seat for RootSeat {
    ghost kernel = { root };

    fn kernel() -> Kernel {
        Kernel::Root
    }
}

// A refusal at the stage of a kernel: as plain a value as the fault that it holds, whatever type names the kernel.
#[derive_where(Clone, Copy)]
pub struct At<S> {
    pub fault: Fault,
    seat: PhantomData<S>,
}

impl<S: Seat> At<S> {
    // The refusal at that kernel.
    pub fn new(fault: Fault) -> Self
        ensures { result.fault ≡ fault }
    {
        At {
            fault,
            seat: PhantomData,
        }
    }
}

impl<S: Seat> From<ControllerFault> for At<S> {
    ghost from_gives = { λ e r. r.fault ≡ Controller e };

    fn from(fault: ControllerFault) -> Self {
        At::new(Fault::Controller(fault))
    }
}

impl<S: Seat> From<LevelFault> for At<S> {
    ghost from_gives = { λ e r. r.fault ≡ Level e };

    fn from(fault: LevelFault) -> Self {
        At::new(Fault::Level(fault))
    }
}

impl<S: Seat> From<At<S>> for MachineFault {
    ghost from_gives = { λ e r. r ≡ record { fault = e.fault; place = kernel S.Seat.kernel } };

    fn from(refusal: At<S>) -> MachineFault {
        MachineFault {
            fault: refusal.fault,
            place: Place::Kernel(S::kernel()),
        }
    }
}

// The hardware's refusals come straight from its controller.
impl From<ControllerFault> for MachineFault {
    ghost from_gives = { λ e r. r ≡ record { fault = Controller e; place = hardware } };

    fn from(fault: ControllerFault) -> MachineFault {
        MachineFault {
            fault: Fault::Controller(fault),
            place: Place::Hardware,
        }
    }
}
