// One line of a trace, read and obeyed.
ghost use Rattle.std.specs.Prelude.{◌≡◌, ℕ};
ghost use Rattle.machine.specs.Whole.{model_of};
ghost use Rattle.trace.specs.Calls.{SameStacks};
ghost use Rattle.trace.specs.Lines.{traced_by, Reroutes, SetsUp, PlaysSetup, PlaysCommand};
ghost use Rattle.trace.specs.Sessions.{has_started, session_model};
ghost use Rattle.trace.specs.Stages.{head_stage, root_stage};

use crate::obey::obey;
use crate::{HeadOn, RootOn, Saved, Session};
use controller::Controller;
use listing::{Listed, TraceFault};
use machine::{LaidOut, Machine, Running};
use routes::Route;
use stage::Stage;
use trace_lines::{Setup, read_command, read_setup};

// The session that a line left, and its result, which is not yet listed, unlike a step's.
pub(crate) struct Played<H: Controller, A: Stage, B: Stage> {
    pub(crate) session: Session<H, A, B>,
    pub(crate) result: Result<Listed, TraceFault>,
}

// Sets the route of a line.
fn reroute<H: Controller, A: Stage, B: Stage>(
    machine: &mut Machine<LaidOut, H, A, B>,
    line: u8,
    route: Route,
) -> Result<Listed, TraceFault>
    ensures { Reroutes (model_of H.Controller A.Stage B.Stage machine.old) line route result (model_of H.Controller A.Stage B.Stage machine.new) }
{
    machine.route(line, route)?;
    Ok(Listed::Accepted)
}

fn set_up<H: Controller, A: Stage, B: Stage>(
    mut machine: Machine<LaidOut, H, A, B>,
    setup: Setup,
) -> Played<H, A, B>
    ensures { SetsUp (model_of H.Controller A.Stage B.Stage machine) setup result.result (has_started result.session) (session_model H.Controller A.Stage B.Stage result.session) }
{
    match setup {
        Setup::Route { line, route } => {
            let result = reroute(&mut machine, line, route);
            Played {
                session: Session::LaidOut(machine),
                result,
            }
        }
        Setup::Start => Played {
            session: Session::Running(machine.start()),
            result: Ok(Listed::Accepted),
        },
    }
}

// A line before the start.
pub(crate) fn before_start<H: Controller, A: Stage, B: Stage>(
    machine: Machine<LaidOut, H, A, B>,
    line: &[u8],
) -> Played<H, A, B>
    ensures { PlaysSetup (model_of H.Controller A.Stage B.Stage machine) line.now result.result (has_started result.session) (session_model H.Controller A.Stage B.Stage result.session) }
{
    // matched, and no `?`, since the machine goes on either way
    match read_setup(line) {
        Ok(setup) => set_up(machine, setup),
        Err(fault) => Played {
            session: Session::LaidOut(machine),
            result: Err(TraceFault::Text(fault)),
        },
    }
}

// A line after the start.
pub(crate) fn after_start<H: Controller, C: Controller, D: Controller>(
    machine: &mut Machine<Running, H, HeadOn<C>, RootOn<D>>,
    saved: &mut Saved<'_>,
    line: &[u8],
) -> Result<Listed, TraceFault>
    ensures lent { SameStacks saved.old saved.new }
    ensures plays { PlaysCommand (traced_by (model_of H.Controller (head_stage C.Controller) (root_stage D.Controller) machine.old) saved.old) line.now result (traced_by (model_of H.Controller (head_stage C.Controller) (root_stage D.Controller) machine.new) saved.new) }
{
    let command = read_command(line)?;
    obey(machine, saved, command)
}
