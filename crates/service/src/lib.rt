// Serving a burst of requests on any controller.
#![tactic(auto)]

ghost use Rattle.std.specs.Prelude.{◌≡◌, ℕ, ◌<◌, ◌≤◌, Bool, true, false, List, [], ◌∷◌, ◌++◌, length, vec_len, vec_capacity, Decides, MatchResult};
ghost use Rattle.lines.specs.Sets.{has, common};
ghost use Rattle.controller.specs.View.{View, Sound, fresh};
ghost use Rattle.service.specs.Bursts.{set_of, Answers, raised_all, Serves, Reports};

use controller::{Controller, ControllerFault, Raised};
use std::alloc::{AllocError, Global};

// What a burst of requests led to.
#[derive(Drop)]
pub struct Report {
    // the answer to each request, in their order: a list beside the caller's, which is only lent
    pub answers: Vec<Result<Raised, ControllerFault>>,
    // the lines served, in the order in which they were taken
    pub served: Vec<u8>,
}

// Raises each line.
fn raise_each<C: Controller>(
    controller: &mut C,
    requests: &[u8],
    answers: &mut Vec<Result<Raised, ControllerFault>>,
)
    requires no_answer_yet { answers.old.items ≡ [] }
    requires room { length requests.now ≤ vec_capacity answers.old }
    ensures fixed { C.Controller.ranks controller.new ≡ C.Controller.ranks controller.old }
    ensures leaves { C.Controller.view controller.new ≡ raised_all (C.Controller.view controller.old) requests.now }
    ensures told { Answers (C.Controller.view controller.old) requests.now answers.new.items }
{
    for line in requests {
        answers.push_reserved(controller.raise(*line));
    }
}

// Notes the line as the next one served.
fn note(served: &mut Vec<u8>, line: u8)
    requires { vec_len served.old < vec_capacity served.old }
    ensures items { served.new.items ≡ served.old.items ++ line ∷ [] }
    ensures capacity { vec_capacity served.new ≡ vec_capacity served.old }
{
    served.push_reserved(line);
}

// Takes and ends line after line, until none is deliverable.
fn serve_each<C: Controller>(controller: &mut C, served: &mut Vec<u8>)
    requires none_served_yet { served.old.items ≡ [] }
    requires room { 64 ≤ vec_capacity served.old }
    ensures fixed { C.Controller.ranks controller.new ≡ C.Controller.ranks controller.old }
    ensures leaves { Serves (C.Controller.view controller.old) served.new.items (C.Controller.view controller.new) }
{
    while let Some(line) = controller.take() {
        let _ = controller.end();
        note(served, line);
    }
}

// Raises each line of the burst, then takes and ends line after line until none is deliverable. Want of memory leaves the
// controller as it was.
pub fn serve<C: Controller>(
    heap: Global,
    controller: &mut C,
    requests: &[u8],
) -> Result<Report, AllocError>
    ensures fixed { C.Controller.ranks controller.new ≡ C.Controller.ranks controller.old }
    ensures led { MatchResult result (λ report. Reports (C.Controller.view controller.old) requests.now report.answers.items report.served.items (C.Controller.view controller.new)) (λ _. controller.new ≡ controller.old) }
{
    let mut answers = Vec::with_capacity(heap, requests.len())?;
    let mut served = Vec::with_capacity(heap, 64)?;
    raise_each(controller, requests, &mut answers);
    serve_each(controller, &mut served);
    Ok(Report { answers, served })
}
