// The pair as an interrupt controller.
ghost use Rattle.std.specs.Prelude.{◌≡◌, ℕ, Bool, true, false};
ghost use Rattle.lines.specs.Sets.{has, only};
ghost use Rattle.bank.specs.Contents.{clear, latched, mask_written, acknowledged, retired};
ghost use Rattle.pair8259.specs.Chips.{joined};
ghost use Rattle.pair8259.specs.Pair.{pair_lines, pair_level, pair_order, pair_contents};
ghost use Rattle.std.proofs.Common.{rules, arith};
ghost use Rattle.pair8259.specs.Joined.{line_below};

use crate::bytes::Bytes;
use crate::{Chip, Chips};
use bank::{Bank, Registers};
use controller::Ranking;
use levels::PairLevel;
use lines::LineSet;

// Lines 0 to 15 without 2.
pub type Pair8259 = Bank<Chips>;

// Lines 0 to 15 without 2, on which the slave hangs.
const LINES: LineSet = LineSet { bits: 0xfffb };

impl Chips {
    // The bytes of interrupt requests.
    fn requests(self) -> Bytes
        ensures { joined result.master result.slave ≡ (pair_contents self).pending }
    {
        Bytes {
            master: self.master.requests,
            slave: self.slave.requests,
        }
    }

    // The bytes of the interrupt masks.
    fn masks(self) -> Bytes
        ensures { joined result.master result.slave ≡ (pair_contents self).masked }
    {
        Bytes {
            master: self.master.mask,
            slave: self.slave.mask,
        }
    }

    // The bytes of the lines in service.
    fn served(self) -> Bytes
        ensures { joined result.master result.slave ≡ (pair_contents self).in_service }
    {
        Bytes {
            master: self.master.in_service,
            slave: self.slave.in_service,
        }
    }

    // Writes the interrupt requests.
    fn set_requests(&mut self, bytes: Bytes)
        ensures { pair_contents self.new ≡ record { pending = joined bytes.master bytes.slave; masked = (pair_contents self.old).masked; in_service = (pair_contents self.old).in_service } }
    {
        self.master.requests = bytes.master;
        self.slave.requests = bytes.slave;
    }

    // Writes the interrupt masks.
    fn set_masks(&mut self, bytes: Bytes)
        ensures { pair_contents self.new ≡ record { pending = (pair_contents self.old).pending; masked = joined bytes.master bytes.slave; in_service = (pair_contents self.old).in_service } }
    {
        self.master.mask = bytes.master;
        self.slave.mask = bytes.slave;
    }

    // Writes the lines in service, and the cascade's bit among them.
    fn set_served(&mut self, bytes: Bytes)
        ensures { pair_contents self.new ≡ record { pending = (pair_contents self.old).pending; masked = (pair_contents self.old).masked; in_service = joined bytes.master bytes.slave } }
    {
        let bytes = bytes.cascaded();
        self.master.in_service = bytes.master;
        self.slave.in_service = bytes.slave;
    }
}

impl Ranking for Chips {
    type Level = PairLevel;

    ghost ranks = { pair_level };

    ghost order = { pair_order };

    ghost ordered = { first_of (Prim.search rules, Prim.grind (arith, Self.row.coded.inj)) };

    fn level_of(line: u8) -> PairLevel {
        if line < 8 {
            PairLevel {
                master: line,
                slave: 0,
            }
        } else {
            PairLevel {
                master: 2,
                slave: line - 8,
            }
        }
    }
}

impl Registers for Chips {
    ghost wired = { pair_lines };

    ghost contents = { pair_contents };

    ghost small = { line_below };

    ghost some = { first_of (Prim.search rules, Prim.grind (arith, Self.row.coded.inj)) };

    #[tactic(auto, using(crate::specs::Joined::empty))]
    fn cleared() -> Chips {
        Chips {
            master: Chip::default(),
            slave: Chip::default(),
        }
    }

    fn wired() -> LineSet {
        LINES
    }

    fn pending(&self) -> LineSet {
        self.requests().lines()
    }

    fn masked(&self) -> LineSet {
        self.masks().lines()
    }

    fn in_service(&self) -> LineSet {
        self.served().lines()
    }

    fn latch(&mut self, line: u8) {
        if LINES.contains(line) {
            self.set_requests(self.requests().with(line));
        }
    }

    fn write_mask(&mut self, set: LineSet) {
        self.set_masks(Bytes::from(set));
    }

    fn acknowledge(&mut self, line: u8) {
        if LINES.contains(line) {
            self.set_requests(self.requests().without(line));
            self.set_served(self.served().with(line));
        }
    }

    fn retire(&mut self, line: u8) {
        self.set_served(self.served().without(line));
    }
}
