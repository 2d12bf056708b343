// Playing a list of calls.
ghost use Rattle.std.specs.Prelude.{◌≡◌, ◌≤◌, Ok, [], length, IfOk, vec_capacity, MatchResult};
ghost use Rattle.model.specs.declared.calls.Call.TheVariants.{Next as next_call, To as to_call};
ghost use Rattle.model.specs.Machine.{Step};
ghost use Rattle.model.specs.Run.{Run, Fresh};
ghost use Rattle.model.specs.Promises.{RunPromises};
ghost use Rattle.machine.specs.Whole.{model_of};
ghost use Rattle.machine.specs.Played.{entries};

use crate::{Arrived, Machine, Running};
use controller::Controller;
use model::{Answer, Call, Kernel, Reply, StageCall};
use stage::Stage;
use std::alloc::{AllocError, Global};

impl<H: Controller, A: Stage, B: Stage> Machine<Running, H, A, B> {
    // Any call of a kernel's stage.
    fn call_stage(&mut self, kernel: Kernel, call: StageCall) -> Reply
        ensures { Step (model_of H.Controller A.Stage B.Stage self.old) (to_call kernel call) result (model_of H.Controller A.Stage B.Stage self.new) }
    {
        match call {
            StageCall::Done => Ok(Answer::Ended(self.done(kernel)?)),
            StageCall::Mask(set) => {
                self.mask(kernel, set)?;
                Ok(Answer::Masked)
            }
            StageCall::Stall => Ok(Answer::WasStalled(self.stall(kernel))),
            StageCall::Unstall => Ok(Answer::WasStalled(self.unstall(kernel))),
            StageCall::SetLevel(code) => Ok(Answer::WasAtLevel(self.set_level(kernel, code)?)),
        }
    }

    // Next for a kernel. Each outcome of the root's has an answer of its own, so the result is matched.
    fn call_next(&mut self, kernel: Kernel) -> Answer
        ensures { Step (model_of H.Controller A.Stage B.Stage self.old) (next_call kernel) (Ok result) (model_of H.Controller A.Stage B.Stage self.new) }
    {
        match kernel {
            Kernel::Head => Answer::Delivered(self.next_for_head()),
            Kernel::Root => match self.next_for_root() {
                Ok(line) => Answer::Delivered(line),
                Err(hindrance) => Answer::from(hindrance),
            },
        }
    }

    // Any call of a running machine.
    pub fn call(&mut self, call: Call) -> Reply
        ensures { Step (model_of H.Controller A.Stage B.Stage self.old) call result (model_of H.Controller A.Stage B.Stage self.new) }
    {
        match call {
            Call::Raise(line) => Ok(Answer::Raised(self.raise(line)?)),
            Call::MaskHardware(set) => {
                self.mask_hardware(set)?;
                Ok(Answer::Masked)
            }
            Call::Pump(n) => {
                let Arrived { count, set } = self.pump(n)?;
                Ok(Answer::Arrived { count, set })
            }
            Call::Next(kernel) => Ok(self.call_next(kernel)),
            Call::To(kernel, call) => self.call_stage(kernel, call),
            Call::Ask(place, question) => Ok(Answer::Told(self.ask(place, question))),
        }
    }

    // Plays the calls one after another, and notes their replies.
    fn play(&mut self, calls: &[Call], replies: &mut Vec<Reply>)
        requires no_reply_yet { replies.old.items ≡ [] }
        requires room { length calls.now ≤ vec_capacity replies.old }
        ensures all { length replies.new.items ≡ length calls.now }
        ensures ran { Run (model_of H.Controller A.Stage B.Stage self.old) (entries calls.now replies.new.items) (model_of H.Controller A.Stage B.Stage self.new) }
    {
        for call in calls {
            replies.push_reserved(self.call(*call));
        }
    }
}

// Plays a list of calls on a running machine, and gives their replies. Want of memory leaves the machine as it was.
pub fn run<H: Controller, A: Stage, B: Stage>(
    heap: Global,
    machine: &mut Machine<Running, H, A, B>,
    calls: &[Call],
) -> Result<Vec<Reply>, AllocError>
    ensures ran { MatchResult result (λ replies. (length replies.items ≡ length calls.now) × Run (model_of H.Controller A.Stage B.Stage machine.old) (entries calls.now replies.items) (model_of H.Controller A.Stage B.Stage machine.new)) (λ _. machine.new ≡ machine.old) }
    ensures promises { IfOk result (λ replies. (Fresh (model_of H.Controller A.Stage B.Stage machine.old) → RunPromises (model_of H.Controller A.Stage B.Stage machine.old) (entries calls.now replies.items) (model_of H.Controller A.Stage B.Stage machine.new))) }
{
    let mut replies = Vec::with_capacity(heap, calls.len())?;
    machine.play(calls, &mut replies);
    Ok(replies)
}
