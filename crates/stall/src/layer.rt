// The stall layer: one bit that blocks all lines.
ghost use Rattle.std.specs.Prelude.{◌≡◌, true, false};
ghost use Rattle.controller.specs.Calls.{Raises, Masks, Takes, Ends};
ghost use Rattle.stall.specs.Stalling.{layer_view, Gated};
ghost use Rattle.stall.specs.Stalled.{stalled_sound};
ghost use Rattle.std.proofs.Common.{rules};

use controller::{Controller, ControllerFault, Raised};
use lines::LineSet;
use std::mem;

#[derive(Drop)]
pub struct Stall<C: Controller> {
    // what stands above may call it past the layer
    pub below: C,
    pub stalled: bool,
}

impl<C: Controller> Stall<C> {
    // The layer on a controller, with the bit clear: it tells what the controller tells.
    pub fn new(below: C) -> Self
        ensures told { layer_view C.Controller result ≡ C.Controller.view below }
        ensures below { result.below ≡ below }
        ensures bit { result.stalled ≡ false }
    {
        Stall {
            below,
            stalled: false,
        }
    }

    // Sets the bit, and answers the former one. The rules name two calls, stall and unstall, so no flag stands for them.
    pub fn stall(&mut self) -> bool
        ensures former { result ≡ self.old.stalled }
        ensures bit { self.new.stalled ≡ true }
        ensures below { self.new.below ≡ self.old.below }
    {
        mem::replace(&mut self.stalled, true)
    }

    // Clears the bit, and answers the former one.
    pub fn unstall(&mut self) -> bool
        ensures former { result ≡ self.old.stalled }
        ensures bit { self.new.stalled ≡ false }
        ensures below { self.new.below ≡ self.old.below }
    {
        mem::replace(&mut self.stalled, false)
    }
}

impl<C: Controller> Controller for Stall<C> {
    type Level = C::Level;

    ghost view = { λ s. layer_view C.Controller s };

    ghost ranks = { λ s. C.Controller.ranks s.below };

    ghost ordered = { Prim.search rules };

    ghost sound = { λ s. stalled_sound _ s.stalled (C.Controller.sound s.below) };

    fn lines(&self) -> LineSet {
        self.below.lines()
    }

    fn level(&self, line: u8) -> Result<C::Level, ControllerFault> {
        self.below.level(line)
    }

    fn pending(&self) -> LineSet {
        self.below.pending()
    }

    fn masked(&self) -> LineSet {
        self.below.masked()
    }

    fn blocked(&self) -> LineSet {
        if self.stalled {
            self.below.lines()
        } else {
            self.below.blocked()
        }
    }

    fn in_service(&self) -> LineSet {
        self.below.in_service()
    }

    // Raises below, whatever the bit.
    fn raise(&mut self, line: u8) -> Result<Raised, ControllerFault>
        ensures fixed { C.Controller.ranks self.new.below ≡ C.Controller.ranks self.old.below }
        ensures leaves { Raises (layer_view C.Controller self.old) line result (layer_view C.Controller self.new) }
        ensures bit { self.new.stalled ≡ self.old.stalled }
        ensures under { Raises (C.Controller.view self.old.below) line result (C.Controller.view self.new.below) }
    {
        self.below.raise(line)
    }

    // Masks below, whatever the bit.
    fn mask(&mut self, set: LineSet) -> Result<(), ControllerFault>
        ensures fixed { C.Controller.ranks self.new.below ≡ C.Controller.ranks self.old.below }
        ensures leaves { Masks (layer_view C.Controller self.old) set.bits result (layer_view C.Controller self.new) }
        ensures bit { self.new.stalled ≡ self.old.stalled }
        ensures under { Masks (C.Controller.view self.old.below) set.bits result (C.Controller.view self.new.below) }
    {
        self.below.mask(set)
    }

    // Takes below while the bit is clear; while it is set the answer is none and the controller below is left untouched.
    fn take(&mut self) -> Option<u8>
        ensures fixed { C.Controller.ranks self.new.below ≡ C.Controller.ranks self.old.below }
        ensures leaves { Takes (layer_view C.Controller self.old) result (layer_view C.Controller self.new) }
        ensures bit { self.new.stalled ≡ self.old.stalled }
        ensures gated { Gated self.old.stalled result (self.new.below ≡ self.old.below) (Takes (C.Controller.view self.old.below) result (C.Controller.view self.new.below)) }
    {
        if self.stalled {
            None
        } else {
            self.below.take()
        }
    }

    // Ends below, whatever the bit.
    fn end(&mut self) -> Result<u8, ControllerFault>
        ensures fixed { C.Controller.ranks self.new.below ≡ C.Controller.ranks self.old.below }
        ensures leaves { Ends (layer_view C.Controller self.old) result (layer_view C.Controller self.new) }
        ensures bit { self.new.stalled ≡ self.old.stalled }
        ensures under { Ends (C.Controller.view self.old.below) result (C.Controller.view self.new.below) }
    {
        self.below.end()
    }
}
