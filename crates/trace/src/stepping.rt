// One line of a trace, played and listed.
ghost use Rattle.std.specs.Prelude.{◌≡◌, ℕ, true, length, nat_lt};
ghost use Rattle.machine.specs.Whole.{model_of};
ghost use Rattle.trace.specs.Calls.{SameStacks};
ghost use Rattle.trace.specs.Lines.{traced_by, Steps};
ghost use Rattle.trace.specs.Sessions.{has_started, session_model};
ghost use Rattle.trace.specs.Stages.{head_stage, root_stage};

use crate::play::{Played, after_start, before_start};
use crate::{HeadOn, RootOn, Saved, Session};
use controller::Controller;
use listing::{ShortBuffer, write_line};
use machine::{Machine, Running};
use stage::Stage;

// The machine after a step, and how many bytes the step wrote, since the buffer is its lender's. A playback's has
// a struct of its own: what goes on is a session here and a playback there, and each is named.
#[derive(Drop)]
pub struct Stepped<H: Controller, A: Stage, B: Stage> {
    pub session: Session<H, A, B>,
    pub written: Result<usize, ShortBuffer>,
}

// How many bytes a buffer has at least.
const ROOM: usize = 20;

// Whether a buffer has under 20 bytes.
fn is_short(out: &[u8]) -> bool
    ensures { result ≡ nat_lt (length out.now) 20 }
{
    out.len() < ROOM
}

// Plays the line on a machine that runs, and lists it at the start of the buffer. A buffer under 20 bytes is refused before all else,
// and nothing changes. The machine stays where it is: to move it with its session, as `step` does, costs more than a line does.
pub fn step_running<H: Controller, C: Controller, D: Controller>(
    machine: &mut Machine<Running, H, HeadOn<C>, RootOn<D>>,
    saved: &mut Saved<'_>,
    line: &[u8],
    out: &mut [u8],
) -> Result<usize, ShortBuffer>
    ensures lent { SameStacks saved.old saved.new }
    ensures steps { Steps true (traced_by (model_of H.Controller (head_stage C.Controller) (root_stage D.Controller) machine.old) saved.old) line.now out.old result true (traced_by (model_of H.Controller (head_stage C.Controller) (root_stage D.Controller) machine.new) saved.new) out.new }
{
    if is_short(out) {
        return Err(ShortBuffer);
    }
    let result = after_start(machine, saved, line);
    write_line(out, result)
}

// The same at whichever phase the machine is, since a line may start it.
pub fn step<H: Controller, C: Controller, D: Controller>(
    session: Session<H, HeadOn<C>, RootOn<D>>,
    saved: &mut Saved<'_>,
    line: &[u8],
    out: &mut [u8],
) -> Stepped<H, HeadOn<C>, RootOn<D>>
    ensures lent { SameStacks saved.old saved.new }
    ensures steps { Steps (has_started session) (traced_by (session_model H.Controller (head_stage C.Controller) (root_stage D.Controller) session) saved.old) line.now out.old result.written (has_started result.session) (traced_by (session_model H.Controller (head_stage C.Controller) (root_stage D.Controller) result.session) saved.new) out.new }
{
    match session {
        Session::LaidOut(machine) => {
            if is_short(out) {
                return Stepped {
                    session: Session::LaidOut(machine),
                    written: Err(ShortBuffer),
                };
            }
            let Played { session, result } = before_start(machine, line);
            let written = write_line(out, result);
            Stepped { session, written }
        }
        Session::Running(mut machine) => {
            let written = step_running(&mut machine, saved, line, out);
            Stepped {
                session: Session::Running(machine),
                written,
            }
        }
    }
}
