// What the stage of a kernel means to the kernels behind it.
ghost use Rattle.std.specs.Prelude.{◌≡◌, Decides};
ghost use Rattle.lines.specs.Sets.{minus};
ghost use Rattle.model.specs.Stage.{told};
ghost use Rattle.stage.specs.Gates.{AllBlocked, Occupied, Stands, waits};

use crate::Stage;
use lines::LineSet;
use model::{Answer, Question};

// What makes the kernels behind a stage wait.
#[derive(Clone, Copy, Debug, PartialEq, Eq)]
pub enum Hindrance {
    // it blocks all its lines, and so holds them
    Held,
    // it has a line in service or deliverable, which comes first
    Busy,
}

impl From<Hindrance> for Answer {
    ghost from_gives = { λ h a. a ≡ waits h };

    fn from(hindrance: Hindrance) -> Answer {
        match hindrance {
            Hindrance::Held => Answer::Held,
            Hindrance::Busy => Answer::Busy,
        }
    }
}

// Whether the stage blocks all its lines.
fn blocks_all<S: Stage>(stage: &S) -> bool
    ensures { Decides result (AllBlocked (S.Stage.model stage.now)) }
{
    stage.ask(Question::Blocked) == stage.ask(Question::Lines)
}

// The lines that are pending and neither masked nor blocked.
fn ready<S: Stage>(stage: &S) -> LineSet
    ensures { result.bits ≡ minus (minus (told (S.Stage.model stage.now)).pending (told (S.Stage.model stage.now)).masked) (told (S.Stage.model stage.now)).blocked }
{
    stage
        .ask(Question::Pending)
        .minus(stage.ask(Question::Masked))
        .minus(stage.ask(Question::Blocked))
}

// Whether the stage has a line in service or deliverable.
#[tactic(auto, using(crate::proofs::Occupying::ready_occupied))]
fn is_occupied<S: Stage>(stage: &S) -> bool
    ensures { Decides result (Occupied (S.Stage.model stage.now)) }
{
    !stage.ask(Question::InService).is_empty() || !ready(stage).is_empty()
}

// How the stage stands ahead of others: it lets them go on, or makes them wait. Holding comes before having work.
pub fn standing<S: Stage>(stage: &S) -> Result<(), Hindrance>
    ensures { Stands (S.Stage.model stage.now) result }
{
    if blocks_all(stage) {
        Err(Hindrance::Held)
    } else if is_occupied(stage) {
        Err(Hindrance::Busy)
    } else {
        Ok(())
    }
}
