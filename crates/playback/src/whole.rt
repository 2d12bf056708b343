// A whole trace.
ghost use Rattle.std.specs.Prelude.{◌≡◌, ℕ, IfOk};
ghost use Rattle.trace_lines.specs.Cut.{lines_of, last_line};
ghost use Rattle.trace.specs.Calls.{SameStacks};
ghost use Rattle.trace.specs.Sessions.{has_started};
ghost use Rattle.playback.specs.States.{state, at_first};
ghost use Rattle.playback.specs.Traces.{PlaysLines, Replays};

use crate::Playback;
use levels::{BsdLevel, Class};
use std::alloc::{AllocError, Global};
use trace::Saved;

impl Playback {
    // Plays a last line, which no line feed ends, unless it is empty.
    pub fn play_last(
        self,
        saved: &mut Saved<'_>,
        begun: &[u8],
        listing: &mut Vec<u8>,
    ) -> Result<Playback, AllocError>
        ensures lent { SameStacks saved.old saved.new }
        ensures plays { IfOk result (λ p. PlaysLines (has_started self.session) (state self.session saved.old) (last_line begun.now) listing.old.items (has_started p.session) (state p.session saved.new) listing.new.items) }
    {
        if begun.is_empty() {
            return Ok(self);
        }
        self.play_line(saved, begun, listing)
    }

    // Plays all lines of a text.
    pub fn play_text(
        self,
        saved: &mut Saved<'_>,
        text: &[u8],
        listing: &mut Vec<u8>,
    ) -> Result<Playback, AllocError>
        ensures lent { SameStacks saved.old saved.new }
        ensures plays { IfOk result (λ p. PlaysLines (has_started self.session) (state self.session saved.old) (lines_of text.now) listing.old.items (has_started p.session) (state p.session saved.new) listing.new.items) }
    {
        let (playback, rest) = self.play_lines(saved, text, listing)?;
        playback.play_last(saved, rest, listing)
    }
}

// Replays a trace on a machine laid out for it, with stacks of 16 places, and gives its listing.
pub fn replay(heap: Global, trace: &[u8]) -> Result<Vec<u8>, AllocError>
    ensures { IfOk result (λ listing. Replays at_first trace.now listing.items) }
{
    let mut head_places = [Class(0); 16];
    let mut root_places = [BsdLevel::None; 16];
    let mut saved = Saved::over(&mut head_places, &mut root_places);
    let mut listing = Vec::new(heap);
    let _left = Playback::new().play_text(&mut saved, trace, &mut listing)?;
    Ok(listing)
}
