// Examples played on the 8259 pair.
#![tactic(auto)]

#[cfg(test)]
mod tests {
    use bank::Registers;
    use controller::{Controller, ControllerFault, Raised};
    use lines::LineSet;
    use pair8259::Pair8259;

    #[test]
    fn lines_come_in_the_order_of_their_levels(rt: HostRuntime) {
        let mut pair = Pair8259::new();
        assert_eq!(rt; pair.raise(3), Ok(Raised::New));
        assert_eq!(rt; pair.raise(8), Ok(Raised::New));
        assert_eq!(rt; pair.raise(1), Ok(Raised::New));
        assert_eq!(rt; pair.take(), Some(1));
        assert_eq!(rt; pair.end(), Ok(1));
        assert_eq!(rt; pair.take(), Some(8));
        assert_eq!(rt; pair.end(), Ok(8));
        assert_eq!(rt; pair.take(), Some(3));
        assert_eq!(rt; pair.end(), Ok(3));
        assert_eq!(rt; pair.take(), None);
        assert_eq!(rt; pair.end(), Err(ControllerFault::NothingInService));
    }

    #[test]
    fn other_lines_are_refused(rt: HostRuntime) {
        let mut pair = Pair8259::new();
        assert_eq!(rt; pair.raise(15), Ok(Raised::New));
        assert_eq!(rt; pair.raise(15), Ok(Raised::Merged));
        assert_eq!(rt; pair.raise(2), Err(ControllerFault::NoSuchLine));
        assert_eq!(rt; pair.raise(16), Err(ControllerFault::NoSuchLine));
        assert_eq!(rt; pair.level(2), Err(ControllerFault::NoSuchLine));
        assert_eq!(rt; pair.pending(), LineSet::new(0x8000));
        assert_eq!(rt; ControllerFault::NoSuchLine.number(), 1);
    }

    #[test]
    fn slave_lines_nest(rt: HostRuntime) {
        let mut pair = Pair8259::new();
        let _ = pair.raise(3);
        assert_eq!(rt; pair.take(), Some(3));
        let _ = pair.raise(9);
        assert_eq!(rt; pair.take(), Some(9));
        let _ = pair.raise(10);
        assert_eq!(rt; pair.take(), None);
        let _ = pair.raise(8);
        assert_eq!(rt; pair.take(), Some(8));
        assert_eq!(rt; pair.end(), Ok(8));
        assert_eq!(rt; pair.take(), None);
        assert_eq!(rt; pair.in_service(), LineSet::new(0x208));
    }

    #[test]
    fn a_mask_outside_the_lines_changes_nothing(rt: HostRuntime) {
        let mut pair = Pair8259::new();
        assert_eq!(rt; pair.mask(LineSet::new(0xfffb)), Ok(()));
        assert_eq!(rt;
            pair.mask(LineSet::new(4)),
            Err(ControllerFault::MaskOutside)
        );
        assert_eq!(rt; pair.masked(), LineSet::new(0xfffb));
        assert_eq!(rt; pair.lines(), LineSet::new(0xfffb));
        assert_eq!(rt; ControllerFault::MaskOutside.number(), 2);
    }

    #[test]
    fn a_set_gives_its_lines_in_rising_order(rt: HostRuntime) {
        let mut lines = LineSet::EMPTY
            .with(63)
            .with(0)
            .with(17)
            .with(64)
            .without(200)
            .lines();
        assert_eq!(rt; lines.rest.count(), 3);
        assert_eq!(rt; lines.next(), Some(0));
        assert_eq!(rt; lines.next(), Some(17));
        assert_eq!(rt; lines.next(), Some(63));
        assert_eq!(rt; lines.next(), None);
    }
}
