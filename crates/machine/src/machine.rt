// The machine, laid out, running or closed.
ghost use Rattle.std.specs.Prelude.{◌≡◌, Decides, MatchResult};
ghost use Rattle.lines.specs.Sets.{has, Within};
ghost use Rattle.model.specs.declared.fault.Fault.TheVariants.{NotAtStage};
ghost use Rattle.model.specs.Run.{Made, Fresh, Routable};
ghost use Rattle.routes.specs.Sets.{default_routes};
ghost use Rattle.machine.specs.Routing.{CanHandle, Routed, LeavesRoutes};

use crate::{Closed, LaidOut, Running};
use controller::Controller;
use lines::LineSet;
use model::{At, Fault, HeadSeat, MachineFault, Question, RootSeat, Seat};
use routes::{Route, Routes};
use stage::Stage;

// A hardware controller, the stages of the head and the root kernel, and where the hardware's lines go: no route lets a kernel
// handle a line that its stage lacks. The two stages have types of their own, so a kernel is matched and not an index; and what
// a machine is by the rules holds functions, which no impl Model can have as its value.
#[derive(Drop)]
pub struct Machine<P, H: Controller, A: Stage, B: Stage> {
    pub(crate) phase: P,
    pub(crate) hardware: H,
    pub(crate) head: A,
    pub(crate) root: B,
    pub(crate) routes: Routes,
    pub ghost head_fits: { Within routes.head_handles.bits (A.Stage.model head).own.lines },
    pub ghost root_fits: { Within routes.root_handles.bits (B.Stage.model root).own.lines },
}

// Whether a stage with these lines can be let to handle the line, if the flag says so.
fn can_handle(lines: LineSet, line: u8, handles: bool) -> bool
    ensures { Decides result (CanHandle lines.bits line handles) }
{
    !handles || lines.contains(line)
}

// Refuses a line that the stage of a kernel lacks, if the kernel is to handle it.
fn check_route<K: Seat, S: Stage>(stage: &S, line: u8, handles: bool) -> Result<(), At<K>>
    ensures { MatchResult result (λ _. CanHandle (S.Stage.model stage.now).own.lines line handles) (λ e. (CanHandle (S.Stage.model stage.now).own.lines line handles → ⊥) × (e.fault ≡ NotAtStage)) }
{
    if can_handle(stage.ask(Question::Lines), line, handles) {
        Ok(())
    } else {
        Err(At::new(Fault::NotAtStage))
    }
}

impl<P: Drop, H: Controller, A: Stage, B: Stage> Machine<P, H, A, B> {
    ghost use Rattle.machine.specs.Whole.{model_of};

    // The same machine in another phase.
    fn in_phase<Q>(self, phase: Q) -> Machine<Q, H, A, B>
        ensures { model_of H.Controller A.Stage B.Stage result ≡ model_of H.Controller A.Stage B.Stage self }
    {
        let Machine {
            phase: _,
            hardware,
            head,
            root,
            routes,
        } = self;
        Machine {
            phase,
            hardware,
            head,
            root,
            routes,
        }
    }
}

impl<H: Controller, A: Stage, B: Stage> Machine<LaidOut, H, A, B> {
    ghost use Rattle.machine.specs.Whole.{machine, model_of, MadeStage};

    // A machine with no route set: the head passes each line on, and the root handles those that its stage has.
    pub fn lay_out(hardware: H, head: A, root: B) -> Self
        ensures model { model_of H.Controller A.Stage B.Stage result ≡ machine (H.Controller.view hardware) (A.Stage.model head) (B.Stage.model root) (default_routes (H.Controller.view hardware).lines (B.Stage.model root).own.lines) }
        ensures fresh { Made (H.Controller.view hardware) → MadeStage (A.Stage.model head) → MadeStage (B.Stage.model root) → Fresh (model_of H.Controller A.Stage B.Stage result) }
    {
        let lines = hardware.lines();
        let routes = Routes {
            head_handles: LineSet::EMPTY,
            head_passes: lines,
            root_handles: lines.common(root.ask(Question::Lines)),
        };
        Machine {
            phase: LaidOut,
            hardware,
            head,
            root,
            routes,
        }
    }

    // Sets the route of a line; the last one set counts.
    pub fn route(&mut self, line: u8, route: Route) -> Result<(), MachineFault>
        ensures answers { Routed (H.Controller.view self.old.hardware).lines (A.Stage.model self.old.head).own.lines (B.Stage.model self.old.root).own.lines line route result }
        ensures routes { LeavesRoutes self.old.routes line route result self.new.routes }
        ensures hardware { self.new.hardware ≡ self.old.hardware }
        ensures head { self.new.head ≡ self.old.head }
        ensures root { self.new.root ≡ self.old.root }
    {
        let _ = self.hardware.level(line)?;
        check_route::<HeadSeat, A>(&self.head, line, route.head_handles)?;
        check_route::<RootSeat, B>(&self.root, line, route.root_handles)?;
        self.routes = self.routes.with(line, route);
        Ok(())
    }

    // The machine runs from now on.
    pub fn start(self) -> Machine<Running, H, A, B>
        ensures same { model_of H.Controller A.Stage B.Stage result ≡ model_of H.Controller A.Stage B.Stage self }
        ensures routable { Routable (model_of H.Controller A.Stage B.Stage result) }
        ensures fresh { Fresh (model_of H.Controller A.Stage B.Stage self) → Fresh (model_of H.Controller A.Stage B.Stage result) }
    {
        self.in_phase(Running)
    }
}

impl<H: Controller, A: Stage, B: Stage> Machine<Running, H, A, B> {
    ghost use Rattle.machine.specs.Whole.{model_of};

    // The machine answers only questions from now on.
    pub fn close(self) -> Machine<Closed, H, A, B>
        ensures { model_of H.Controller A.Stage B.Stage result ≡ model_of H.Controller A.Stage B.Stage self }
    {
        self.in_phase(Closed)
    }
}
