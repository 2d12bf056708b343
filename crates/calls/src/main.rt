// Plays a short list of calls on the cabinet's machine, and prints each call with its answer.
#![tactic(auto)]

mod shown;

use lines::LineSet;
use machine::{Machine, run};
use model::{Call, Kernel, Place, Question, StageCall};
use optimistic::Optimistic;
use pair8259::Pair8259;
use pending_log::PendingLog;
use routes::Route;
use shown::Shown;
use spl::{HeadPolicy, RootPolicy};
use stage::on;

// Line 0 goes to both kernels and line 3 to the head alone; line 1 has no route, and goes to the root.
const CALLS: [Call; 24] = [
    Call::Raise(0),
    Call::Raise(0),
    Call::Raise(1),
    Call::Raise(2),
    Call::Raise(3),
    Call::Pump(65),
    Call::Pump(9),
    Call::Next(Kernel::Root),
    Call::Next(Kernel::Head),
    Call::Next(Kernel::Root),
    Call::To(Kernel::Head, StageCall::Done),
    Call::Next(Kernel::Head),
    Call::To(Kernel::Head, StageCall::Done),
    Call::Next(Kernel::Root),
    Call::To(Kernel::Root, StageCall::Done),
    Call::To(Kernel::Head, StageCall::SetLevel(4)),
    Call::Next(Kernel::Root),
    Call::To(Kernel::Head, StageCall::SetLevel(0)),
    Call::To(Kernel::Root, StageCall::Mask(LineSet { bits: 2 })),
    Call::Next(Kernel::Root),
    Call::To(Kernel::Root, StageCall::Done),
    Call::To(Kernel::Root, StageCall::Stall),
    Call::Ask(Place::Kernel(Kernel::Root), Question::Pending),
    Call::Raise(8),
];

// Lays the machine out, of parts that are the example, starts it, plays the calls, closes it and prints what is left.
fn start(rt: &HostRuntime) -> anyhow::Result<()> {
    let hardware = Optimistic::new(Pair8259::new());
    let head = on(HeadPolicy, PendingLog::new());
    let root = on(RootPolicy, Optimistic::new(PendingLog::new()));
    let mut machine = Machine::lay_out(hardware, head, root);
    let both = Route {
        head_handles: true,
        head_passes: true,
        root_handles: true,
    };
    let head_only = Route {
        head_handles: true,
        head_passes: false,
        root_handles: false,
    };
    let _ = machine.route(0, both);
    let _ = machine.route(3, head_only);
    let mut machine = machine.start();
    let replies = run(rt.alloc(), &mut machine, &CALLS)?;
    for (call, reply) in CALLS.iter().zip(replies.iter()) {
        println!(rt; "{} -> {}", Shown(*call), Shown(*reply))?;
    }
    let closed = machine.close();
    for place in [
        Place::Hardware,
        Place::Kernel(Kernel::Head),
        Place::Kernel(Kernel::Root),
    ] {
        println!(rt;
            "{}: pending {:x}, in service {:x}",
            Shown(place),
            closed.ask(place, Question::Pending),
            closed.ask(place, Question::InService)
        )?;
    }
    Ok(())
}

fn main(rt: HostRuntime) -> anyhow::Result<()> {
    start(&rt)
}
