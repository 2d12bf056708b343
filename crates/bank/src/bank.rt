// Registers as an interrupt controller, once for all encodings.
ghost use Rattle.std.specs.Prelude.{◌≡◌, ℕ, Bool, true, false, if◌then◌else◌, Decides};
ghost use Rattle.lines.specs.Sets.{has, Within};
ghost use Rattle.controller.specs.View.{Sound, fresh};
ghost use Rattle.controller.specs.declared.fault.Raised.TheVariants.{New, Merged};
ghost use Rattle.bank.specs.Contents.{bank_view};
ghost use Rattle.std.proofs.Common.{rules};

use crate::Registers;
use controller::{Controller, ControllerFault, Raised, Ranking};
use levels::Level;
use lines::LineSet;

// Every value is in order: its sets lie within its lines, and no two lines in service have equal levels.
#[derive(Drop)]
pub struct Bank<R: Registers> {
    registers: R,
    pub ghost sound: { Sound (bank_view R.Registers.wired R.Ranking.order (R.Registers.contents registers)) },
}

impl<R: Registers> Bank<R> {
    // A controller with its four sets empty.
    pub fn new() -> Self
        ensures { bank_view R.Registers.wired R.Ranking.order (R.Registers.contents result.registers) ≡ fresh R.Registers.wired R.Ranking.order }
    {
        Bank {
            registers: R::cleared(),
        }
    }

    // The registers, to look at.
    pub fn registers(&self) -> &R
        ensures { result.now ≡ self.now.registers }
    {
        &self.registers
    }
}

// What a raise answers, by whether the line was pending before. No From: a bool alone says nothing of requests.
fn raised(before: bool) -> Raised
    ensures { result ≡ (if before then Merged else New) }
{
    if before { Raised::Merged } else { Raised::New }
}

// Whether the controller has the line.
fn has_line<R: Registers>(line: u8) -> bool
    ensures { result ≡ has R.Registers.wired line }
{
    R::wired().contains(line)
}

// Whether the controller has each line of the set.
fn has_all<R: Registers>(set: LineSet) -> bool
    ensures { Decides result (Within set.bits R.Registers.wired) }
{
    set.is_within(R::wired())
}

impl<R: Registers> Controller for Bank<R> {
    type Level = R::Level;

    ghost view = { λ s. bank_view R.Registers.wired R.Ranking.order (R.Registers.contents s.registers) };

    ghost ranks = { λ s. R.Ranking.ranks };

    ghost ordered = { Prim.search rules };

    ghost sound = { λ s. s.sound };

    fn lines(&self) -> LineSet {
        R::wired()
    }

    fn level(&self, line: u8) -> Result<R::Level, ControllerFault> {
        if has_line::<R>(line) {
            Ok(R::level_of(line))
        } else {
            Err(ControllerFault::NoSuchLine)
        }
    }

    fn pending(&self) -> LineSet {
        self.registers.pending()
    }

    fn masked(&self) -> LineSet {
        self.registers.masked()
    }

    fn blocked(&self) -> LineSet {
        LineSet::EMPTY
    }

    fn in_service(&self) -> LineSet {
        self.registers.in_service()
    }

    fn raise(&mut self, line: u8) -> Result<Raised, ControllerFault> {
        if !has_line::<R>(line) {
            return Err(ControllerFault::NoSuchLine);
        }
        let before = self.registers.pending().contains(line);
        self.registers.latch(line);
        Ok(raised(before))
    }

    fn mask(&mut self, set: LineSet) -> Result<(), ControllerFault> {
        if !has_all::<R>(set) {
            return Err(ControllerFault::MaskOutside);
        }
        self.registers.write_mask(set);
        Ok(())
    }

    fn take(&mut self) -> Option<u8> {
        let line = self.registers.deliverable()?;
        self.registers.acknowledge(line);
        Some(line)
    }

    fn end(&mut self) -> Result<u8, ControllerFault> {
        let Some(line) = self.registers.serving() else {
            return Err(ControllerFault::NothingInService);
        };
        self.registers.retire(line);
        Ok(line)
    }
}
