// What a line of a listing says.
ghost use Rattle.std.specs.Prelude.{◌≡◌};
ghost use Rattle.listing.specs.Faults.{short_buffer_number};
ghost use Rattle.listing.specs.Refusals.{refusal_of};
ghost use Rattle.listing.specs.declared.listed.TraceFault.TheVariants.{Text, Machine};

use level_stack::StackFault;
use model::{Answer, Kernel, MachineFault, Place};
use trace_lines::TextFault;

// Why a line of a trace is refused, and where. A refused line leaves the machine and the stacks as they were.
#[derive(Clone, Copy, Debug, PartialEq, Eq)]
pub enum TraceFault {
    // the line as text
    Text(TextFault),
    // the machine's own, with its place
    Machine(MachineFault),
    // the stack of a kernel's saved levels
    Saved { fault: StackFault, kernel: Kernel },
}

impl From<TextFault> for TraceFault {
    ghost from_gives = { λ e r. r ≡ Text e };

    fn from(fault: TextFault) -> TraceFault {
        TraceFault::Text(fault)
    }
}

impl From<MachineFault> for TraceFault {
    ghost from_gives = { λ e r. r ≡ Machine e };

    fn from(fault: MachineFault) -> TraceFault {
        TraceFault::Machine(fault)
    }
}

// Where a refusal is listed to be.
#[derive(Clone, Copy, Debug, PartialEq, Eq)]
pub enum ListedPlace {
    // at the hardware or at the stage of a kernel
    Machine(Place),
    // at the text of the line
    Text,
}

// A refusal as it is listed, by its number and its place: any number, whoever refused.
#[derive(Clone, Copy, Debug, PartialEq, Eq)]
pub struct Refusal {
    pub number: u8,
    pub place: ListedPlace,
}

impl From<TraceFault> for Refusal {
    ghost from_gives = { λ e r. r ≡ refusal_of e };

    fn from(fault: TraceFault) -> Refusal {
        match fault {
            TraceFault::Text(fault) => Refusal {
                number: fault.number(),
                place: ListedPlace::Text,
            },
            TraceFault::Machine(refused) => Refusal {
                number: refused.fault.number(),
                place: ListedPlace::Machine(refused.place),
            },
            TraceFault::Saved { fault, kernel } => Refusal {
                number: fault.number(),
                place: ListedPlace::Machine(Place::Kernel(kernel)),
            },
        }
    }
}

// What an obeyed line of a trace lists.
#[derive(Clone, Copy, Debug, PartialEq, Eq)]
pub enum Listed {
    // a command before the start was obeyed
    Accepted,
    // a call of the machine was made
    Answered(Answer),
    // a saved level was set again: its code
    Restored(u8),
}

// The buffer has too few bytes for a line.
#[derive(Clone, Copy, Debug, PartialEq, Eq)]
pub struct ShortBuffer;

impl ShortBuffer {
    // The number of the refusal, the only one of its kind, so that no enum numbers it.
    pub fn number(self) -> u8
        ensures { result ≡ short_buffer_number }
    {
        10
    }
}
