// The calls of a running machine and what they answer.
use crate::MachineFault;
use controller::Raised;
use lines::LineSet;

// The kernels, in the order of the pipeline.
#[derive(Clone, Copy, Debug, PartialEq, Eq)]
pub enum Kernel {
    Head,
    Root,
}

// Where a call was answered: at the hardware controller or at a kernel's stage.
#[derive(Clone, Copy, Debug, PartialEq, Eq)]
pub enum Place {
    Hardware,
    Kernel(Kernel),
}

// What can be asked of a place: its lines and its four sets.
#[derive(Clone, Copy, Debug, PartialEq, Eq)]
pub enum Question {
    Lines,
    Pending,
    Masked,
    Blocked,
    InService,
}

// The calls of a kernel's stage that no other stage has a say in.
#[derive(Clone, Copy, Debug, PartialEq, Eq)]
pub enum StageCall {
    Done,
    Mask(LineSet),
    Stall,
    Unstall,
    // by the level's code
    SetLevel(u8),
}

// The calls of a running machine.
#[derive(Clone, Copy, Debug, PartialEq, Eq)]
pub enum Call {
    Raise(u8),
    MaskHardware(LineSet),
    // at most so many arrivals
    Pump(u8),
    Next(Kernel),
    To(Kernel, StageCall),
    Ask(Place, Question),
}

// What a call answers: a variant for each word that can be listed, next's three among them.
#[derive(Clone, Copy, Debug, PartialEq, Eq)]
pub enum Answer {
    // raise
    Raised(Raised),
    // a mask is set
    Masked,
    // pump: how many lines arrived, and which
    Arrived { count: u8, set: LineSet },
    // next: the line delivered, or none
    Delivered(Option<u8>),
    // next: a kernel ahead blocks all its lines
    Held,
    // next: a kernel ahead has a line in service or deliverable
    Busy,
    // done: the line that left service
    Ended(u8),
    // stall, unstall: whether the stage was stalled before
    WasStalled(bool),
    // set level: the code of the level before
    WasAtLevel(u8),
    // a question
    Told(LineSet),
}

// What a call is answered: an answer, or a refusal, which leaves the machine as it was.
pub type Reply = Result<Answer, MachineFault>;
