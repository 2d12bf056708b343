// The optimistic layer: it masks in software, and writes the mask below only for lines that came meanwhile.
ghost use Rattle.std.specs.Prelude.{◌≡◌};
ghost use Rattle.lines.specs.Sets.{has, common, minus, union, Within};
ghost use Rattle.controller.specs.View.{set_masked, set_pending};
ghost use Rattle.controller.specs.Calls.{Raises, Masks, Takes, Ends};
ghost use Rattle.optimistic.specs.Logging.{Logging, Latches, Frees, Logs, below_after};
ghost use Rattle.optimistic.specs.Logged.{logged_sound};
ghost use Rattle.std.proofs.Common.{rules};

use crate::again::raise_lines;
use controller::{Controller, ControllerFault, Raised};
use lines::LineSet;

// A line of the soft mask that comes is found by a take only: it is then moved from the controller below to the log.
#[derive(Drop)]
pub struct Optimistic<C: Controller> {
    below: C,
    soft: LineSet,
    log: LineSet,
    pub ghost logging: { Logging (C.Controller.view below) soft.bits log.bits },
}

impl<C: Controller> Optimistic<C> {
    ghost use Rattle.optimistic.specs.Layer.{layer_view};

    // The layer on a controller, which tells what the controller told: its mask becomes the soft mask, and the empty mask is
    // written below.
    pub fn new(mut below: C) -> Self
        ensures fixed { C.Controller.ranks result.below ≡ C.Controller.ranks below }
        ensures told { layer_view C.Controller result ≡ C.Controller.view below }
        ensures soft { result.soft.bits ≡ (C.Controller.view below).masked }
        ensures log { result.log.bits ≡ 0 }
        ensures under { C.Controller.view result.below ≡ set_masked (C.Controller.view below) 0 }
    {
        let soft = below.masked();
        let _ = below.mask(LineSet::EMPTY);
        Optimistic {
            below,
            soft,
            log: LineSet::EMPTY,
        }
    }

    // The soft mask.
    pub fn soft_mask(&self) -> LineSet
        ensures { result ≡ self.now.soft }
    {
        self.soft
    }

    // The log: lines that are pending here and no longer below.
    pub fn log(&self) -> LineSet
        ensures { result ≡ self.now.log }
    {
        self.log
    }

    // The controller below.
    pub fn below(&self) -> &C
        ensures { result.now ≡ self.now.below }
    {
        &self.below
    }

    // Whether the line is in the soft mask.
    fn is_soft(&self, line: u8) -> bool
        ensures { result ≡ has self.now.soft.bits line }
    {
        self.soft.contains(line)
    }

    // Whether the line is logged.
    fn is_logged(&self, line: u8) -> bool
        ensures { result ≡ has self.now.log.bits line }
    {
        self.log.contains(line)
    }

    // The logged lines that a mask frees.
    fn freed_by(&self, set: LineSet) -> LineSet
        ensures { result.bits ≡ minus self.now.log.bits set.bits }
    {
        self.log.minus(set)
    }

    // The log becomes the set, which lies within the soft mask, and so does the mask below.
    fn write_log(&mut self, log: LineSet) -> Result<(), ControllerFault>
        requires { Within log.bits self.old.soft.bits }
        ensures fixed { C.Controller.ranks self.new.below ≡ C.Controller.ranks self.old.below }
        ensures soft { self.new.soft ≡ self.old.soft }
        ensures log { self.new.log ≡ log }
        ensures under { Masks (C.Controller.view self.old.below) log.bits result (C.Controller.view self.new.below) }
    {
        self.log = log;
        self.below.mask(log)
    }

    // Raises the lines below.
    fn raise_again(&mut self, freed: LineSet)
        requires { Within freed.bits (C.Controller.view self.old.below).lines }
        ensures fixed { C.Controller.ranks self.new.below ≡ C.Controller.ranks self.old.below }
        ensures soft { self.new.soft ≡ self.old.soft }
        ensures log { self.new.log ≡ self.old.log }
        ensures under { C.Controller.view self.new.below ≡ set_pending (C.Controller.view self.old.below) (union (C.Controller.view self.old.below).pending freed.bits) }
    {
        raise_lines(&mut self.below, freed);
    }
}

impl<C: Controller> Controller for Optimistic<C> {
    ghost use Rattle.optimistic.specs.Layer.{layer_view};

    type Level = C::Level;

    ghost view = { λ s. layer_view C.Controller s };

    ghost ranks = { λ s. C.Controller.ranks s.below };

    ghost ordered = { Prim.search rules };

    ghost sound = { λ s. logged_sound _ _ _ (C.Controller.sound s.below) s.logging };

    fn lines(&self) -> LineSet {
        self.below.lines()
    }

    fn level(&self, line: u8) -> Result<C::Level, ControllerFault> {
        self.below.level(line)
    }

    fn pending(&self) -> LineSet {
        self.log.union(self.below.pending())
    }

    fn masked(&self) -> LineSet {
        self.soft
    }

    fn blocked(&self) -> LineSet {
        self.below.blocked()
    }

    fn in_service(&self) -> LineSet {
        self.below.in_service()
    }

    // Raises the line below, unless it is logged: then it is pending already.
    fn raise(&mut self, line: u8) -> Result<Raised, ControllerFault>
        ensures fixed { C.Controller.ranks self.new.below ≡ C.Controller.ranks self.old.below }
        ensures leaves { Raises (layer_view C.Controller self.old) line result (layer_view C.Controller self.new) }
        ensures soft { self.new.soft ≡ self.old.soft }
        ensures log { self.new.log ≡ self.old.log }
        ensures under { Latches (has self.old.log.bits line) (C.Controller.view self.old.below) line result (C.Controller.view self.new.below) }
    {
        if self.is_logged(line) {
            return Ok(Raised::Merged);
        }
        self.below.raise(line)
    }

    // The soft mask becomes the set. Logged lines that it frees are raised below again and leave the log, and the mask below with
    // it; if it frees none, the controller below is not called.
    fn mask(&mut self, set: LineSet) -> Result<(), ControllerFault>
        ensures fixed { C.Controller.ranks self.new.below ≡ C.Controller.ranks self.old.below }
        ensures leaves { Masks (layer_view C.Controller self.old) set.bits result (layer_view C.Controller self.new) }
        ensures frees { Frees (C.Controller.view self.old.below) self.old.log.bits set.bits result self.new.soft.bits self.new.log.bits (C.Controller.view self.new.below) (self.new ≡ self.old) }
        ensures untouched { Within self.old.log.bits set.bits → self.new.below ≡ self.old.below }
    {
        if !set.is_within(self.below.lines()) {
            return Err(ControllerFault::MaskOutside);
        }
        let freed = self.freed_by(set);
        if !freed.is_empty() {
            let _ = self.write_log(self.log.common(set));
            self.raise_again(freed);
        }
        self.soft = set;
        Ok(())
    }

    // Takes below until the line is outside the soft mask or there is none. Each line within it that is met goes to the log.
    fn take(&mut self) -> Option<u8>
        ensures fixed { C.Controller.ranks self.new.below ≡ C.Controller.ranks self.old.below }
        ensures leaves { Takes (layer_view C.Controller self.old) result (layer_view C.Controller self.new) }
        ensures soft { self.new.soft ≡ self.old.soft }
        ensures logs { Logs (C.Controller.view self.old.below) self.old.soft.bits self.old.log.bits result self.new.log.bits }
        ensures under { C.Controller.view self.new.below ≡ below_after (C.Controller.view self.old.below) self.old.log.bits result self.new.log.bits }
    {
        while let Some(line) = self.below.take() {
            if !self.is_soft(line) {
                return Some(line);
            }
            let _ = self.below.end();
            let _ = self.write_log(self.log.with(line));
        }
        None
    }

    // Ends below.
    fn end(&mut self) -> Result<u8, ControllerFault>
        ensures fixed { C.Controller.ranks self.new.below ≡ C.Controller.ranks self.old.below }
        ensures leaves { Ends (layer_view C.Controller self.old) result (layer_view C.Controller self.new) }
        ensures soft { self.new.soft ≡ self.old.soft }
        ensures log { self.new.log ≡ self.old.log }
        ensures under { Ends (C.Controller.view self.old.below) result (C.Controller.view self.new.below) }
    {
        self.below.end()
    }
}
