// Lines of a trace, one after another.
ghost use Rattle.std.specs.Prelude.{◌≡◌, ℕ, ◌≤◌, true, [], ◌∷◌, length, drop, IfOk, OnOk};
ghost use Rattle.trace_lines.specs.Cut.{whole_lines, begun, IsEnd};
ghost use Rattle.trace.specs.Calls.{SameStacks};
ghost use Rattle.trace.specs.Sessions.{has_started};
ghost use Rattle.trace.specs.declared.session.Session.TheVariants.{Running as running};
ghost use Rattle.playback.specs.States.{state};
ghost use Rattle.playback.specs.Traces.{PlaysLines};

use crate::{Hardware, HeadStage, Playback, PlaybackStepped, RootStage};
use machine::{Machine, Running};
use std::alloc::AllocError;
use trace::{Saved, Session, step_running};
use trace_lines::next_whole_line;

// Plays a line on the machine that runs, and puts its listing behind what the listing has.
fn run_line(
    machine: &mut Machine<Running, Hardware, HeadStage, RootStage>,
    saved: &mut Saved<'_>,
    line: &[u8],
    listing: &mut Vec<u8>,
) -> Result<(), AllocError>
    ensures lent { SameStacks saved.old saved.new }
    ensures plays { OnOk result (PlaysLines true (state (running machine.old) saved.old) (line.now ∷ []) listing.old.items true (state (running machine.new) saved.new) listing.new.items) }
{
    let mut buffer = [0u8; 20];
    let written = step_running(machine, saved, line, &mut buffer);
    if let Ok(n) = written {
        listing.extend_from_slice(&buffer[0..n])?;
    }
    Ok(())
}

impl Playback {
    // Plays a line, and puts its listing behind what the listing has.
    pub fn play_line(
        self,
        saved: &mut Saved<'_>,
        line: &[u8],
        listing: &mut Vec<u8>,
    ) -> Result<Playback, AllocError>
        ensures lent { SameStacks saved.old saved.new }
        ensures plays { IfOk result (λ p. PlaysLines (has_started self.session) (state self.session saved.old) (line.now ∷ []) listing.old.items (has_started p.session) (state p.session saved.new) listing.new.items) }
    {
        let mut buffer = [0u8; 20];
        let PlaybackStepped { playback, written } = self.step(saved, line, &mut buffer);
        if let Ok(n) = written {
            listing.extend_from_slice(&buffer[0..n])?;
        }
        Ok(playback)
    }
}

impl Playback {
    // Plays the lines of the text that a line feed ends, and gives what comes after them: a line that has begun.
    pub fn play_lines<'t>(
        self,
        saved: &mut Saved<'_>,
        text: &'t [u8],
        listing: &mut Vec<u8>,
    ) -> Result<(Playback, &'t [u8]), AllocError>
        ensures lent { SameStacks saved.old saved.new }
        ensures plays { IfOk result (λ p. PlaysLines (has_started self.session) (state self.session saved.old) (whole_lines text.now) listing.old.items (has_started p.0.session) (state p.0.session saved.new) listing.new.items) }
        ensures rest { IfOk result (λ p. p.1.now ≡ begun text.now) }
        ensures end { IfOk result (λ p. IsEnd p.1.now text.now) }
    {
        let mut playback = self;
        let mut rest = text;
        while let Some((line, after)) = next_whole_line(rest) {
            // a machine that runs stays where it is; one that is laid out may start, so its session is moved
            match &mut playback.session {
                Session::Running(machine) => run_line(machine, saved, line, listing)?,
                Session::LaidOut(_) => playback = playback.play_line(saved, line, listing)?,
            }
            rest = after;
        }
        Ok((playback, rest))
    }
}
