// The two ends of an arrival: a line leaves a controller, and comes to a stage.
ghost use Rattle.std.specs.Prelude.{◌≡◌};
ghost use Rattle.stage.specs.Gates.{Passed, reached};

use crate::Stage;
use controller::Controller;
use lines::LineSet;

// Takes the first deliverable line and ends it at once.
pub fn pass<C: Controller>(controller: &mut C) -> Option<u8>
    ensures { Passed (C.Controller.view controller.old) result (C.Controller.view controller.new) }
{
    let line = controller.take()?;
    let _ = controller.end();
    Some(line)
}

// Raises the line at the stage if it is routed there.
#[tactic(auto, using(crate::proofs::Arriving::stays_away))]
pub fn deliver<S: Stage>(stage: &mut S, routed: LineSet, line: u8)
    ensures { S.Stage.model stage.new ≡ reached (S.Stage.model stage.old) routed.bits line }
{
    if routed.contains(line) {
        let _ = stage.raise(line);
    }
}
