// The pump: it moves lines from the hardware to the kernels.
ghost use Rattle.std.specs.Prelude.{◌≡◌, ◌+◌, ◌<◌, nat_lt};
ghost use Rattle.lines.specs.Sets.{with_line};
ghost use Rattle.model.specs.declared.calls.Call.TheVariants.{Pump as pump_call};
ghost use Rattle.model.specs.Machine.{Answered, Pumps, pump_says, Step};
ghost use Rattle.machine.specs.Whole.{model_of};
ghost use Rattle.machine.specs.Answering.{replied, arrived_of};

use crate::{Live, Machine};
use controller::Controller;
use lines::LineSet;
use model::{Fault, MachineFault, Place};
use stage::Stage;

// The most lines that one pump moves.
const LIMIT: u8 = 64;

// How many lines arrived, and which: by the rules a pump answers both. The model's answer has the two as they are, since what a
// pump does with them, one line more at a time, is the machine's.
#[derive(Clone, Copy, Debug, PartialEq, Eq)]
pub struct Arrived {
    pub count: u8,
    pub set: LineSet,
}

impl Arrived {
    // No line yet.
    fn none() -> Arrived
        ensures count { result.count ≡ 0 }
        ensures set { result.set.bits ≡ 0 }
    {
        Arrived {
            count: 0,
            set: LineSet::EMPTY,
        }
    }

    // With one line more.
    fn with(self, line: u8) -> Arrived
        requires { self.count < 255 }
        ensures count { result.count ≡ self.count + 1 }
        ensures set { result.set.bits ≡ with_line 64 self.set.bits line }
    {
        Arrived {
            count: self.count + 1,
            set: self.set.with(line),
        }
    }
}

// Whether a pump of n lines goes over its limit.
fn is_over(n: u8, limit: u8) -> bool
    ensures { result ≡ nat_lt limit n }
{
    limit < n
}

impl<P: Live, H: Controller, A: Stage, B: Stage> Machine<P, H, A, B> {
    // The first n deliverable lines of the hardware arrive, or all if they are fewer; more than 64 are refused.
    pub fn pump(&mut self, n: u8) -> Result<Arrived, MachineFault>
        ensures { Step (model_of H.Controller A.Stage B.Stage self.old) (pump_call n) (replied arrived_of result) (model_of H.Controller A.Stage B.Stage self.new) }
    {
        self.pump_within(LIMIT, n)
    }

    // The same, for any limit.
    fn pump_within(&mut self, limit: u8, n: u8) -> Result<Arrived, MachineFault>
        ensures { Answered (Pumps {E = Unit {0}} limit n) pump_says (model_of H.Controller A.Stage B.Stage self.old) (replied arrived_of result) (model_of H.Controller A.Stage B.Stage self.new) }
    {
        if is_over(n, limit) {
            return Err(MachineFault {
                fault: Fault::OverLimit,
                place: Place::Hardware,
            });
        }
        let mut arrived = Arrived::none();
        // what has arrived so far is the answer when no line is left, so there is no `?`
        for _ in 0..n {
            match self.arrive() {
                Some(line) => arrived = arrived.with(line),
                None => return Ok(arrived),
            }
        }
        Ok(arrived)
    }
}
