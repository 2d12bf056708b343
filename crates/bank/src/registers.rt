// The registers of a controller.
ghost use Rattle.std.specs.Prelude.{◌≡◌, ℕ, ◌<◌, Bool, true, false, ◌≢◌};
ghost use Rattle.lines.specs.Sets.{has, minus};
ghost use Rattle.controller.specs.View.{ahead_by};
ghost use Rattle.controller.specs.Picks.{Picks, Over};
ghost use Rattle.bank.specs.Contents.{Contents, clear, latched, mask_written, acknowledged, retired};

use controller::{Ranking, first_of, first_over};
use lines::LineSet;

// Three sets of lines, however they are encoded. The lines and their levels are fixed by the kind of controller.
pub trait Registers: Ranking {
    // the lines that there are
    ghost wired: { ℕ };

    // what the registers hold
    ghost contents: { Self → Contents };

    // The registers with nothing in them.
    fn cleared() -> Self
        ensures { contents result ≡ clear };

    // The lines that there are.
    fn wired() -> LineSet
        ensures { result.bits ≡ wired };

    // The pending lines.
    fn pending(&self) -> LineSet
        ensures { result.bits ≡ (contents self.now).pending };

    // The masked lines.
    fn masked(&self) -> LineSet
        ensures { result.bits ≡ (contents self.now).masked };

    // The lines in service.
    fn in_service(&self) -> LineSet
        ensures { result.bits ≡ (contents self.now).in_service };

    // The first line that is pending, not masked, and above every line in service: the first deliverable line.
    fn deliverable(&self) -> Option<u8>
        ensures { Picks (ahead_by Self.Ranking.order) (Over Self.Ranking.order (minus (contents self.now).pending (contents self.now).masked) (contents self.now).in_service) result }
    {
        first_over::<Self>(self.pending().minus(self.masked()), self.in_service())
    }

    // The first line in service.
    fn serving(&self) -> Option<u8>
        ensures { Picks (ahead_by Self.Ranking.order) (λ n. has (contents self.now).in_service n ≡ true) result }
    {
        first_of::<Self>(self.in_service())
    }

    // Latches a request of the line.
    fn latch(&mut self, line: u8)
        ensures { contents self.new ≡ latched wired (contents self.old) line };

    // Writes the mask.
    fn write_mask(&mut self, set: LineSet)
        ensures { contents self.new ≡ mask_written wired (contents self.old) set.bits };

    // Acknowledges the line: it goes from pending into service.
    fn acknowledge(&mut self, line: u8)
        ensures { contents self.new ≡ acknowledged wired (contents self.old) line };

    // The line leaves service.
    fn retire(&mut self, line: u8)
        ensures { contents self.new ≡ retired (contents self.old) line };

    ghost small: { (n : ℕ) → has wired n ≡ true → n < 64 };

    ghost some: { wired ≢ 0 };
}
