// The layers played over the register controllers, alone and one upon another.
#![tactic(auto)]

#[cfg(test)]
mod tests {
    use bank::Registers;
    use controller::{Controller, Raised};
    use levels::{BsdLevel, Class};
    use lines::LineSet;
    use optimistic::Optimistic;
    use pair8259::Pair8259;
    use pending_log::PendingLog;
    use spl::{HeadPolicy, LevelFault, RootPolicy, Spl};
    use stall::Stall;
    use vectored::Vectored;

    // A line of the soft mask is logged by a take, merges when it is raised again, and comes once when the mask frees it.
    #[test]
    fn optimistic_on_pair(rt: HostRuntime) {
        let mut layer = Optimistic::new(Pair8259::new());
        assert_eq!(rt; layer.mask(LineSet::new(0x10)), Ok(()));
        assert_eq!(rt; layer.raise(4), Ok(Raised::New));
        assert_eq!(rt; layer.take(), None);
        assert_eq!(rt; layer.below().masked(), LineSet::new(0x10));
        assert_eq!(rt; layer.raise(4), Ok(Raised::Merged));
        assert_eq!(rt; layer.mask(LineSet::EMPTY), Ok(()));
        assert_eq!(rt; layer.take(), Some(4));
        assert_eq!(rt; layer.end(), Ok(4));
        assert_eq!(rt; layer.take(), None);
    }

    // A take with nothing to log writes no mask below.
    #[test]
    fn nothing_to_log(rt: HostRuntime) {
        let mut layer = Optimistic::new(Pair8259::new());
        assert_eq!(rt; layer.mask(LineSet::new(0x10)), Ok(()));
        assert_eq!(rt; layer.take(), None);
        assert_eq!(rt; layer.below().masked(), LineSet::EMPTY);
    }

    // The mask of the controller below is taken over.
    #[test]
    fn optimistic_on_a_masked_pair(rt: HostRuntime) {
        let mut pair = Pair8259::new();
        assert_eq!(rt; pair.mask(LineSet::new(0x10)), Ok(()));
        let layer = Optimistic::new(pair);
        assert_eq!(rt; layer.soft_mask(), LineSet::new(0x10));
        assert_eq!(rt; layer.below().masked(), LineSet::EMPTY);
    }

    // A line at the current level stays blocked, and one above it comes.
    #[test]
    fn spl_on_vectored(rt: HostRuntime) {
        let mut layer = Spl::new(RootPolicy, Vectored::new());
        assert_eq!(rt; layer.set_level(BsdLevel::Net), Ok(BsdLevel::None));
        assert_eq!(rt; layer.raise(5), Ok(Raised::New));
        assert_eq!(rt; layer.take(), None);
        assert_eq!(rt; layer.raise(4), Ok(Raised::New));
        assert_eq!(rt; layer.take(), Some(4));
    }

    // A class that has no code is refused; at the highest that has one all lines are blocked.
    #[test]
    fn head_levels(rt: HostRuntime) {
        let mut layer = Spl::new(HeadPolicy, Vectored::new());
        assert_eq!(rt; layer.set_level(Class(5)), Err(LevelFault::NoSuchLevel));
        assert_eq!(rt; layer.set_level(Class(4)), Ok(Class(0)));
        assert_eq!(rt; layer.blocked(), LineSet::ALL);
        assert_eq!(rt; LevelFault::NoSuchLevel.number(), 4);
    }

    // A line logged by the upper layer is masked by the lower one, and comes once when it is freed.
    #[test]
    fn optimistic_twice(rt: HostRuntime) {
        let mut layer = Optimistic::new(Optimistic::new(PendingLog::new()));
        assert_eq!(rt; layer.mask(LineSet::new(0x10)), Ok(()));
        assert_eq!(rt; layer.raise(4), Ok(Raised::New));
        assert_eq!(rt; layer.take(), None);
        assert_eq!(rt; layer.below().soft_mask(), LineSet::new(0x10));
        assert_eq!(rt; layer.below().below().masked(), LineSet::EMPTY);
        assert_eq!(rt; layer.mask(LineSet::EMPTY), Ok(()));
        assert_eq!(rt; layer.take(), Some(4));
    }

    // While the bit is set nothing comes; once it is clear, what the level lets through.
    #[test]
    fn stall_on_spl_on_optimistic(rt: HostRuntime) {
        let mut spl = Spl::new(RootPolicy, Optimistic::new(PendingLog::new()));
        assert_eq!(rt; spl.set_level(BsdLevel::Net), Ok(BsdLevel::None));
        let mut layers = Stall::new(spl);
        assert!(rt; !layers.stall());
        assert_eq!(rt; layers.raise(5), Ok(Raised::New));
        assert_eq!(rt; layers.raise(4), Ok(Raised::New));
        assert_eq!(rt; layers.take(), None);
        assert!(rt; layers.unstall());
        assert_eq!(rt; layers.take(), Some(4));
        assert_eq!(rt; layers.end(), Ok(4));
        assert_eq!(rt; layers.take(), None);
    }

    // An optimistic layer over the others logs what they would deliver.
    #[test]
    fn optimistic_on_stall_on_spl(rt: HostRuntime) {
        let mut layers = Optimistic::new(Stall::new(Spl::new(RootPolicy, Pair8259::new())));
        assert_eq!(rt; layers.mask(LineSet::new(0x102)), Ok(()));
        assert_eq!(rt; layers.raise(1), Ok(Raised::New));
        assert_eq!(rt; layers.raise(8), Ok(Raised::New));
        assert_eq!(rt; layers.raise(3), Ok(Raised::New));
        assert_eq!(rt; layers.take(), Some(3));
        assert_eq!(rt; layers.log(), LineSet::new(0x102));
    }
}
