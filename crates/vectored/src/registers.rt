// The registers of the vectored controller, and the controller that they make.
ghost use Rattle.std.specs.Prelude.{◌≡◌};
ghost use Rattle.bank.specs.Contents.{all_lines, acknowledged};
ghost use Rattle.vectored.specs.Hold.{registers_hold};
ghost use Rattle.vectored.specs.Vectors.{class_of, class_order, Vectors};
ghost use Rattle.std.proofs.Common.{rules};
ghost use Rattle.lines.proofs.Laws.{small_all};
ghost use Rattle.bank.proofs.AllLines.{some_line};

use bank::{Bank, Registers};
use controller::{ControllerFault, Ranking};
use levels::Class;
use lines::LineSet;

// The controller with all 64 lines. While a line of a class is in service, no other line of that class is deliverable.
pub type Vectored = Bank<VectoredRegisters>;

// A set of lines for each register. The log's registers are a struct of their own, since their pending set is a bitmap, which is
// searched in its own way.
#[derive(Clone, Copy, Debug, PartialEq, Eq)]
pub struct VectoredRegisters {
    pending: LineSet,
    masked: LineSet,
    in_service: LineSet,
}

impl VectoredRegisters {
    // The vector of the line; NoSuchLine for a number from 64 on.
    pub fn vector(&self, line: u8) -> Result<u8, ControllerFault>
        ensures { Vectors line result }
    {
        if line < 64 {
            Ok(32 + line)
        } else {
            Err(ControllerFault::NoSuchLine)
        }
    }

    // With the line gone from pending into service.
    #[tactic(auto, using(bank::proofs::AllLines::has_every, lines::proofs::Words::out_past_word))]
    fn acknowledging(self, line: u8) -> Self
        ensures { registers_hold result ≡ acknowledged all_lines (registers_hold self) line }
    {
        VectoredRegisters {
            pending: self.pending.without(line),
            in_service: self.in_service.with(line),
            ..self
        }
    }
}

impl Ranking for VectoredRegisters {
    type Level = Class;

    ghost ranks = { class_of };

    ghost order = { class_order };

    ghost ordered = { Prim.search rules };

    fn level_of(line: u8) -> Class {
        Class(2 + line / 16)
    }
}

impl Registers for VectoredRegisters {
    ghost wired = { all_lines };

    ghost contents = { registers_hold };

    ghost small = { small_all };

    ghost some = { some_line };

    fn cleared() -> Self {
        VectoredRegisters {
            pending: LineSet::EMPTY,
            masked: LineSet::EMPTY,
            in_service: LineSet::EMPTY,
        }
    }

    fn wired() -> LineSet {
        LineSet::ALL
    }

    fn pending(&self) -> LineSet {
        self.pending
    }

    fn masked(&self) -> LineSet {
        self.masked
    }

    fn in_service(&self) -> LineSet {
        self.in_service
    }

    #[tactic(auto, using(bank::proofs::AllLines::has_every))]
    fn latch(&mut self, line: u8) {
        self.pending = self.pending.with(line);
    }

    #[tactic(auto, using(lines::proofs::Words::all_word))]
    fn write_mask(&mut self, set: LineSet) {
        self.masked = set;
    }

    fn acknowledge(&mut self, line: u8) {
        *self = self.acknowledging(line);
    }

    fn retire(&mut self, line: u8) {
        self.in_service = self.in_service.without(line);
    }
}
