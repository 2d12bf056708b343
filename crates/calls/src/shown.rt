// How calls and replies are printed.
ghost use Rattle.std.specs.Prelude.{Some};
ghost use Rattle.calls.specs.Shown.{kernel_words, place_words, answer_words, reply_words};

use controller::Raised;
use model::{Answer, Call, Kernel, Place, Question, Reply, StageCall};
use std::fmt;

// A value of the machine, to be printed: an own type, since the crates of the values print nothing. It is made to be printed once.
#[derive(Clone, Copy)]
pub struct Shown<T>(pub T);

impl fmt::Display for Shown<Kernel> {
    ghost output = { λ s. Some (kernel_words s.0) };

    fn fmt<W: fmt::Write>(&self, f: &mut fmt::Formatter<W>) -> fmt::Result {
        f.write_str(match self.0 {
            Kernel::Head => "head",
            Kernel::Root => "root",
        })
    }
}

impl fmt::Display for Shown<Place> {
    ghost output = { λ s. Some (place_words s.0) };

    fn fmt<W: fmt::Write>(&self, f: &mut fmt::Formatter<W>) -> fmt::Result {
        match self.0 {
            Place::Hardware => f.write_str("hardware"),
            Place::Kernel(kernel) => write!(f, "{}", Shown(kernel)),
        }
    }
}

impl fmt::Display for Shown<Question> {
    fn fmt<W: fmt::Write>(&self, f: &mut fmt::Formatter<W>) -> fmt::Result {
        f.write_str(match self.0 {
            Question::Lines => "lines",
            Question::Pending => "pending",
            Question::Masked => "masked",
            Question::Blocked => "blocked",
            Question::InService => "in service",
        })
    }
}

impl fmt::Display for Shown<StageCall> {
    fn fmt<W: fmt::Write>(&self, f: &mut fmt::Formatter<W>) -> fmt::Result {
        match self.0 {
            StageCall::Done => f.write_str("done"),
            StageCall::Mask(set) => write!(f, "mask {set:x}"),
            StageCall::Stall => f.write_str("stall"),
            StageCall::Unstall => f.write_str("unstall"),
            StageCall::SetLevel(code) => write!(f, "set level {code}"),
        }
    }
}

impl fmt::Display for Shown<Call> {
    fn fmt<W: fmt::Write>(&self, f: &mut fmt::Formatter<W>) -> fmt::Result {
        match self.0 {
            Call::Raise(line) => write!(f, "raise {line}"),
            Call::MaskHardware(set) => write!(f, "mask {set:x}"),
            Call::Pump(n) => write!(f, "pump {n}"),
            Call::Next(kernel) => write!(f, "{}: next", Shown(kernel)),
            Call::To(kernel, call) => write!(f, "{}: {}", Shown(kernel), Shown(call)),
            Call::Ask(place, question) => write!(f, "{}: {}?", Shown(place), Shown(question)),
        }
    }
}

impl fmt::Display for Shown<Answer> {
    ghost output = { λ s. answer_words s.0 };

    fn fmt<W: fmt::Write>(&self, f: &mut fmt::Formatter<W>) -> fmt::Result {
        match self.0 {
            Answer::Raised(Raised::New) => f.write_str("new"),
            Answer::Raised(Raised::Merged) => f.write_str("merged"),
            Answer::Masked => f.write_str("ok"),
            Answer::Arrived { count, set } => write!(f, "{count} {set:x}"),
            Answer::Delivered(Some(line)) | Answer::Ended(line) => write!(f, "{line}"),
            Answer::Delivered(None) => f.write_str("none"),
            Answer::Held => f.write_str("held"),
            Answer::Busy => f.write_str("busy"),
            Answer::WasStalled(stalled) => write!(f, "{stalled}"),
            Answer::WasAtLevel(code) => write!(f, "{code}"),
            Answer::Told(set) => write!(f, "{set:x}"),
        }
    }
}

impl fmt::Display for Shown<Reply> {
    ghost output = { λ s. reply_words s.0 };

    fn fmt<W: fmt::Write>(&self, f: &mut fmt::Formatter<W>) -> fmt::Result {
        match self.0 {
            Ok(answer) => write!(f, "{}", Shown(answer)),
            Err(refusal) => {
                let number = refusal.fault.number();
                write!(f, "refused, {number} {}", Shown(refusal.place))
            }
        }
    }
}
