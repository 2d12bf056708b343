// The machine of the cabinet, laid out or running.
use optimistic::Optimistic;
use pair8259::Pair8259;
use pending_log::PendingLog;
use trace::{HeadOn, RootOn, Session};

// An optimistic layer on the pair of 8259s.
pub type Hardware = Optimistic<Pair8259>;

// The head's stage on a pending log.
pub type HeadStage = HeadOn<PendingLog>;

// The root's stage on an optimistic layer on a pending log.
pub type RootStage = RootOn<Optimistic<PendingLog>>;

// Where a trace has come to.
#[derive(Drop)]
pub struct Playback {
    pub(crate) session: Session<Hardware, HeadStage, RootStage>,
}
