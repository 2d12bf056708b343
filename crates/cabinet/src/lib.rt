// The machine of the cabinet: an optimistic layer on an 8259 pair, the head's stage on a pending log and the root's stage on an
// optimistic layer on a pending log.
#![tactic(auto)]

ghost use Rattle.std.specs.Prelude.{◌≡◌, length, IfOk};
ghost use Rattle.controller.specs.View.{fresh as as_made};
ghost use Rattle.bank.specs.Contents.{all_lines};
ghost use Rattle.pair8259.specs.Pair.{pair_lines, pair_order};
ghost use Rattle.pending_log.specs.Places.{place_order};
ghost use Rattle.cabinet.specs.Fresh.{cabinet, Plays};

use controller::Controller;
use machine::{Machine, run};
use model::{Call, Reply};
use optimistic::Optimistic;
use pair8259::Pair8259;
use pending_log::PendingLog;
use spl::{HeadPolicy, RootPolicy};
use stage::on;
use std::alloc::{AllocError, Global};

// Plays a list of calls on a machine, made and started for it, of any controllers that tell what the pair and two pending logs
// tell as they are made.
fn play_on<H: Controller + Drop, A: Controller + Drop, B: Controller + Drop>(
    heap: Global,
    hardware: H,
    head: A,
    root: B,
    calls: &[Call],
) -> Result<Vec<Reply>, AllocError>
    requires pair { H.Controller.view hardware ≡ as_made pair_lines pair_order }
    requires at_head { A.Controller.view head ≡ as_made all_lines place_order }
    requires at_root { B.Controller.view root ≡ as_made all_lines place_order }
    ensures { IfOk result (λ replies. Plays cabinet calls.now replies.items) }
{
    let mut machine = Machine::lay_out(
        hardware,
        on(HeadPolicy, head),
        on(RootPolicy, root),
    ).start();
    run(heap, &mut machine, calls)
}

// Plays a list of calls on the machine, made and started for it.
pub fn play(heap: Global, calls: &[Call]) -> Result<Vec<Reply>, AllocError>
    ensures { IfOk result (λ replies. Plays cabinet calls.now replies.items) }
{
    play_on(
        heap,
        Optimistic::new(Pair8259::new()),
        PendingLog::new(),
        Optimistic::new(PendingLog::new()),
        calls,
    )
}

// The same on a machine without the optimistic layers.
pub fn play_plain(heap: Global, calls: &[Call]) -> Result<Vec<Reply>, AllocError>
    ensures { IfOk result (λ replies. Plays cabinet calls.now replies.items) }
{
    play_on(
        heap,
        Pair8259::new(),
        PendingLog::new(),
        PendingLog::new(),
        calls,
    )
}

// The replies to one list of calls, with the optimistic layers and without them: they are equal.
#[tactic(auto, using(crate::proofs::Starting::same_answers))]
pub fn play_both(heap: Global, calls: &[Call]) -> Result<(Vec<Reply>, Vec<Reply>), AllocError>
    ensures { IfOk result (λ both. (length both.0.items ≡ length calls.now) × (both.0.items ≡ both.1.items)) }
{
    let layered = play(heap, calls)?;
    let plain = play_plain(heap, calls)?;
    Ok((layered, plain))
}
