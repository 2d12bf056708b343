// The registers of the pending log, and the controller that they make.
ghost use Rattle.std.specs.Prelude.{◌≡◌};
ghost use Rattle.bank.specs.Contents.{all_lines, acknowledged};
ghost use Rattle.pending_log.specs.Bytes.{UpperOf};
ghost use Rattle.pending_log.specs.Hold.{registers_hold};
ghost use Rattle.pending_log.specs.Places.{place_of, place_order, over_service};
ghost use Rattle.std.proofs.Common.{rules};
ghost use Rattle.lines.proofs.Laws.{small_all};
ghost use Rattle.bank.proofs.AllLines.{some_line};

use crate::Bitmap;
use bank::{Bank, Registers};
use controller::Ranking;
use levels::LogPlace;
use lines::LineSet;

// The controller with all 64 lines, each at its place: the smaller line is higher.
pub type PendingLog = Bank<LogRegisters>;

// The log of the pending lines, and beside it the masked lines and those in service.
// VectoredRegisters has a struct of its own: one over any kind of pending set would need a trait for that set, with a law for each method.
#[derive(Clone, Copy, Debug, PartialEq, Eq)]
pub struct LogRegisters {
    pending: Bitmap,
    masked: LineSet,
    in_service: LineSet,
}

// The first candidate, if it is above the first line in service.
fn over_service(first: Option<u8>, serving: Option<u8>) -> Option<u8>
    ensures { result ≡ over_service first serving }
{
    first.filter(|line| serving.is_none_or(|served| *line < served))
}

impl LogRegisters {
    // The upper byte of the log.
    pub fn upper(&self) -> u8
        ensures { UpperOf (registers_hold self.now).pending result }
    {
        self.pending.upper()
    }

    // With the line gone from pending into service.
    #[tactic(auto, using(bank::proofs::AllLines::has_every, crate::proofs::Bitmaps::bits_past))]
    fn acknowledging(self, line: u8) -> Self
        ensures { registers_hold result ≡ acknowledged all_lines (registers_hold self) line }
    {
        LogRegisters {
            pending: self.pending.without(line),
            in_service: self.in_service.with(line),
            ..self
        }
    }
}

impl Ranking for LogRegisters {
    type Level = LogPlace;

    ghost ranks = { place_of };

    ghost order = { place_order };

    ghost ordered = { Prim.search rules };

    fn level_of(line: u8) -> LogPlace {
        LogPlace(line)
    }
}

impl Registers for LogRegisters {
    ghost wired = { all_lines };

    ghost contents = { registers_hold };

    ghost small = { small_all };

    ghost some = { some_line };

    fn cleared() -> Self {
        LogRegisters {
            pending: Bitmap::empty(),
            masked: LineSet::EMPTY,
            in_service: LineSet::EMPTY,
        }
    }

    fn wired() -> LineSet {
        LineSet::ALL
    }

    fn pending(&self) -> LineSet {
        self.pending.lines()
    }

    fn masked(&self) -> LineSet {
        self.masked
    }

    fn in_service(&self) -> LineSet {
        self.in_service
    }

    #[tactic(auto, using(crate::proofs::Places::picks_over))]
    fn deliverable(&self) -> Option<u8> {
        over_service(
            self.pending.lowest_outside(self.masked),
            self.in_service.lowest(),
        )
    }

    #[tactic(auto, using(crate::proofs::Places::picks_lowest))]
    fn serving(&self) -> Option<u8> {
        self.in_service.lowest()
    }

    #[tactic(auto, using(bank::proofs::AllLines::has_every))]
    fn latch(&mut self, line: u8) {
        self.pending = self.pending.with(line);
    }

    #[tactic(auto, using(lines::proofs::Words::all_word))]
    fn write_mask(&mut self, set: LineSet) {
        self.masked = set;
    }

    fn acknowledge(&mut self, line: u8) {
        *self = self.acknowledging(line);
    }

    fn retire(&mut self, line: u8) {
        self.in_service = self.in_service.without(line);
    }
}
