// What the lines of a trace say.
ghost use Rattle.std.specs.Prelude.{◌≡◌};
ghost use Rattle.trace_lines.specs.Faults.{text_fault_number};

use lines::LineSet;
use model::Kernel;
use routes::Route;

// Why a line of text is refused. The discriminants are the numbers by which refusals are listed.
#[derive(Clone, Copy, Debug, PartialEq, Eq)]
pub enum TextFault {
    // the line is too long, or of another form than the commands
    Form = 8,
    // a number of it is out of range
    Range = 9,
}

impl TextFault {
    // The number of the refusal: one line for each enum of faults, as in crate controller.
    pub fn number(self) -> u8
        ensures { result ≡ text_fault_number self }
    {
        self as u8
    }
}

// The commands before the start.
#[derive(Clone, Copy, Debug, PartialEq, Eq)]
pub enum Setup {
    // who handles the line, and whether the head passes it on
    Route { line: u8, route: Route },
    Start,
}

// The commands after the start.
#[derive(Clone, Copy, Debug, PartialEq, Eq)]
pub enum Command {
    Raise(u8),
    MaskHardware(LineSet),
    Mask(Kernel, LineSet),
    // at most so many arrivals
    Pump(u8),
    Next(Kernel),
    Done(Kernel),
    Stall(Kernel),
    Unstall(Kernel),
    // the level with this code is set, and the former level saved
    SetLevel(Kernel, u8),
    // the level saved last is set
    RestoreLevel(Kernel),
}
