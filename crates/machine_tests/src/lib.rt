// Examples played on the cabinet's machine.
#![tactic(auto)]

#[cfg(test)]
mod tests {
    use controller::Raised;
    use lines::LineSet;
    use machine::{Machine, Running};
    use model::{Kernel, MachineFault, Place, Question};
    use optimistic::Optimistic;
    use pair8259::Pair8259;
    use pending_log::PendingLog;
    use routes::Route;
    use spl::{HeadPolicy, RootPolicy, Spl};
    use stage::{Hindrance, on};
    use stall::Stall;
    use std::process::Abort;
    use std::test::Fail;

    // The stage of a kernel on a pending log.
    type LogStage<P> = Stall<Spl<P, PendingLog>>;

    // A machine that runs on the pair, each kernel on a pending log: laid out here, as each machine of a test of its own parts.
    fn started() -> Machine<Running, Pair8259, LogStage<HeadPolicy>, LogStage<RootPolicy>> {
        let head = on(HeadPolicy, PendingLog::new());
        let root = on(RootPolicy, PendingLog::new());
        Machine::lay_out(Pair8259::new(), head, root).start()
    }

    // The route with these flags: 1 the head handles, 2 it passes on, 4 the root handles.
    fn flags(number: u8) -> Route {
        Route {
            head_handles: number & 1 != 0,
            head_passes: number & 2 != 0,
            root_handles: number & 4 != 0,
        }
    }

    // The number and the place of the refusal, if the call was refused.
    fn refusal<T: Drop>(reply: Result<T, MachineFault>) -> Option<(u8, Place)> {
        let refused = reply.err()?;
        Some((refused.fault.number(), refused.place))
    }

    #[test]
    fn the_head_at_level_four_holds_the_root(rt: HostRuntime) {
        let mut machine = started();
        assert_eq!(rt; machine.next_for_root(), Ok(None));
        assert_eq!(rt; machine.set_level(Kernel::Head, 4), Ok(0));
        assert_eq!(rt; machine.next_for_root(), Err(Hindrance::Held));
        assert!(rt; machine.set_level(Kernel::Head, 5).is_err());
        assert_eq!(rt; machine.set_level(Kernel::Head, 3), Ok(4));
        assert_eq!(rt; machine.next_for_root(), Ok(None));
    }

    #[test]
    fn a_pump_takes_up_to_64(rt: HostRuntime) -> Result<(), Fail> {
        let mut machine = started();
        assert_eq!(rt; machine.raise(8), Ok(Raised::New));
        assert_eq!(rt; refusal(machine.pump(65)), Some((9, Place::Hardware)));
        let arrived = machine.pump(64)?;
        assert_eq!(rt; arrived.count, 1);
        assert_eq!(rt; arrived.set, LineSet::new(0x100));
        Ok(())
    }

    // What is pending at the head and at the root once line 0 has come by the route with these flags.
    fn arrived_by(rt: &impl Abort, number: u8) -> (u64, u64) {
        let hardware = Optimistic::new(Pair8259::new());
        let head = on(HeadPolicy, PendingLog::new());
        let root = on(RootPolicy, Optimistic::new(PendingLog::new()));
        let mut machine = Machine::lay_out(hardware, head, root);
        assert_eq!(rt; machine.route(0, flags(7)), Ok(()));
        assert_eq!(rt; machine.route(0, flags(number)), Ok(()));
        let mut machine = machine.start();
        assert_eq!(rt; machine.raise(0), Ok(Raised::New));
        assert!(rt; machine.pump(64).is_ok());
        let at_head = machine.ask(Place::Kernel(Kernel::Head), Question::Pending);
        let at_root = machine.ask(Place::Kernel(Kernel::Root), Question::Pending);
        (at_head.bits, at_root.bits)
    }

    #[test]
    fn routes_of_every_flag(rt: HostRuntime) {
        assert_eq!(rt; arrived_by(&rt, 0), (0, 0));
        assert_eq!(rt; arrived_by(&rt, 1), (1, 0));
        assert_eq!(rt; arrived_by(&rt, 2), (0, 0));
        assert_eq!(rt; arrived_by(&rt, 3), (1, 0));
        assert_eq!(rt; arrived_by(&rt, 4), (0, 0));
        assert_eq!(rt; arrived_by(&rt, 5), (1, 0));
        assert_eq!(rt; arrived_by(&rt, 6), (0, 1));
        assert_eq!(rt; arrived_by(&rt, 7), (1, 1));
    }

    #[test]
    fn a_route_that_cannot_be_is_refused(rt: HostRuntime) {
        let head = on(HeadPolicy, Pair8259::new());
        let root = on(RootPolicy, Pair8259::new());
        let mut machine = Machine::lay_out(PendingLog::new(), head, root);
        let at_head = Place::Kernel(Kernel::Head);
        let at_root = Place::Kernel(Kernel::Root);
        assert_eq!(rt;
            refusal(machine.route(64, flags(0))),
            Some((1, Place::Hardware))
        );
        assert_eq!(rt; refusal(machine.route(2, flags(5))), Some((5, at_head)));
        assert_eq!(rt; refusal(machine.route(2, flags(4))), Some((5, at_root)));
        assert_eq!(rt; machine.route(2, flags(2)), Ok(()));
    }

    #[test]
    fn a_closed_machine_tells_its_sets(rt: HostRuntime) {
        let mut machine = started();
        assert_eq!(rt; machine.raise(1), Ok(Raised::New));
        assert_eq!(rt; machine.raise(9), Ok(Raised::New));
        assert!(rt; machine.pump(1).is_ok());
        assert_eq!(rt; machine.next_for_root(), Ok(Some(1)));
        assert_eq!(rt; machine.mask(Kernel::Head, LineSet::new(6)), Ok(()));
        let closed = machine.close();
        let at_head = Place::Kernel(Kernel::Head);
        let at_root = Place::Kernel(Kernel::Root);
        assert_eq!(rt;
            closed.ask(Place::Hardware, Question::Pending),
            LineSet::new(0x200)
        );
        assert_eq!(rt; closed.ask(at_head, Question::Masked), LineSet::new(6));
        assert_eq!(rt; closed.ask(at_root, Question::InService), LineSet::new(2));
        assert_eq!(rt; closed.ask(at_root, Question::Blocked), LineSet::EMPTY);
    }
}
