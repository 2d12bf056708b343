// Blocks of a trace, one after another.
ghost use Rattle.std.specs.Prelude.{◌≡◌, ℕ, ◌-◌, ◌≤◌, min, [], ◌++◌, length, take, IfOk, vec_len, OnOk};
ghost use Rattle.trace.specs.Calls.{SameStacks};
ghost use Rattle.trace.specs.Sessions.{has_started};
ghost use Rattle.playback.specs.States.{state, IsLaidOut};
ghost use Rattle.playback.specs.Blocks.{Feeds, Finishes, BlocksJoin, BlockIsText};

use crate::{Playback, Stream};
use std::alloc::{AllocError, Global};
use trace::Saved;
use trace_lines::next_whole_line;

// How many of some bytes there is room for, beside those that are kept: 81 in all.
fn room(kept: usize, more: usize) -> usize
    ensures { result ≡ min (81 - kept) more }
{
    81usize.saturating_sub(kept).min(more)
}

// Keeps more of a line that has begun, as far as there is room.
fn keep(begun: &mut Vec<u8>, part: &[u8]) -> Result<(), AllocError>
    requires { vec_len begun.old ≤ 81 }
    ensures kept { OnOk result (begun.new.items ≡ take 81 (begun.old.items ++ part.now)) }
    ensures short { vec_len begun.new ≤ 81 }
{
    let more = room(begun.len(), part.len());
    begun.extend_from_slice(&part[0..more])
}

impl Stream {
    // The machine laid out, and nothing begun.
    pub fn new(heap: Global) -> Self
        ensures laid_out { IsLaidOut result.playback.session }
        ensures begun { result.begun.items ≡ [] }
    {
        Stream {
            playback: Playback::new(),
            begun: Vec::new(heap),
        }
    }

    // Plays the lines that the block ends, and puts their listing behind what the listing has. What the block begins is kept.
    pub fn feed(
        self,
        saved: &mut Saved<'_>,
        block: &[u8],
        listing: &mut Vec<u8>,
    ) -> Result<Stream, AllocError>
        ensures lent { SameStacks saved.old saved.new }
        ensures feeds { IfOk result (λ p. Feeds self.begun.items (has_started self.playback.session) (state self.playback.session saved.old) block.now listing.old.items p.begun.items (has_started p.playback.session) (state p.playback.session saved.new) listing.new.items) }
    {
        let Stream {
            playback,
            mut begun,
        } = self;
        let Some((line, rest)) = next_whole_line(block) else {
            keep(&mut begun, block)?;
            return Ok(Stream { playback, begun });
        };
        keep(&mut begun, line)?;
        let playback = playback.play_line(saved, &begun, listing)?;
        let (playback, rest) = playback.play_lines(saved, rest, listing)?;
        begun.clear();
        keep(&mut begun, rest)?;
        Ok(Stream { playback, begun })
    }

    // The end of the input: plays a last line that no line feed ends, if there is one.
    pub fn finish(
        self,
        saved: &mut Saved<'_>,
        listing: &mut Vec<u8>,
    ) -> Result<Playback, AllocError>
        ensures lent { SameStacks saved.old saved.new }
        ensures finishes { IfOk result (λ p. Finishes self.begun.items (has_started self.playback.session) (state self.playback.session saved.old) listing.old.items (has_started p.session) (state p.session saved.new) listing.new.items) }
    {
        let Stream { playback, begun } = self;
        playback.play_last(saved, &begun, listing)
    }
}

// However the input is cut into blocks, the same is listed: what replays the whole text lists.
pub fn a_trace_may_come_in_blocks()
    ensures join { BlocksJoin }
    ensures whole { BlockIsText }
{}
