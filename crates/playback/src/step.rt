// A machine laid out, and one line of a trace.
ghost use Rattle.std.specs.Prelude.{◌≡◌};
ghost use Rattle.trace.specs.Calls.{SameStacks};
ghost use Rattle.trace.specs.Lines.{Steps};
ghost use Rattle.trace.specs.Sessions.{has_started};
ghost use Rattle.playback.specs.States.{state, IsLaidOut};

use crate::Playback;
use listing::ShortBuffer;
use machine::Machine;
use optimistic::Optimistic;
use pair8259::Pair8259;
use pending_log::PendingLog;
use spl::{HeadPolicy, RootPolicy};
use stage::on;
use trace::{Saved, Session, Stepped, step};

// The machine after a line, and how many bytes were listed; a session's step has a struct of its own, which names the session.
#[derive(Drop)]
pub struct PlaybackStepped {
    pub playback: Playback,
    pub written: Result<usize, ShortBuffer>,
}

impl Playback {
    // The machine laid out, with no route set: its parts are named here, as wherever a machine is laid out.
    pub fn new() -> Self
        ensures { IsLaidOut result.session }
    {
        let hardware = Optimistic::new(Pair8259::new());
        let head = on(HeadPolicy, PendingLog::new());
        let root = on(RootPolicy, Optimistic::new(PendingLog::new()));
        let machine = Machine::lay_out(hardware, head, root);
        Playback {
            session: Session::LaidOut(machine),
        }
    }

    // Plays the line and lists it at the start of the buffer; a buffer under 20 bytes is refused before all else, and nothing changes.
    pub fn step(self, saved: &mut Saved<'_>, line: &[u8], out: &mut [u8]) -> PlaybackStepped
        ensures lent { SameStacks saved.old saved.new }
        ensures steps { Steps (has_started self.session) (state self.session saved.old) line.now out.old result.written (has_started result.playback.session) (state result.playback.session saved.new) out.new }
    {
        let Playback { session } = self;
        let Stepped { session, written } = step(session, saved, line, out);
        PlaybackStepped {
            playback: Playback { session },
            written,
        }
    }
}
