// The interface of every interrupt controller and of every layer on one.
ghost use Rattle.std.specs.Prelude.{◌≡◌, ℕ, Bool, true, false};
ghost use Rattle.controller.specs.View.{View, Sound};
ghost use Rattle.controller.specs.Calls.{Raises, Masks, Takes, Ends, Levels};

use crate::{ControllerFault, Raised};
use levels::Level;
use lines::LineSet;

// A controller is its view: the lines it has and their order, both fixed, and the sets of pending, masked, blocked and
// in-service lines. A refused call leaves the view as it was.
pub trait Controller {
    type Level: Level;

    // what it tells
    ghost view: { Self → View };

    // the level of each line; a controller may be made with levels of its own, so each call says that they stay
    ghost ranks: { Self → ℕ → Self.Level };

    // Its lines.
    fn lines(&self) -> LineSet
        ensures { result.bits ≡ (view self.now).lines };

    // The level of a line; NoSuchLine if it lacks the line.
    fn level(&self, line: u8) -> Result<Self::Level, ControllerFault>
        ensures { Levels (view self.now) line (ranks self.now line) result };

    // The pending lines: raised, and not yet taken.
    fn pending(&self) -> LineSet
        ensures { result.bits ≡ (view self.now).pending };

    // The masked lines.
    fn masked(&self) -> LineSet
        ensures { result.bits ≡ (view self.now).masked };

    // The blocked lines.
    fn blocked(&self) -> LineSet
        ensures { result.bits ≡ (view self.now).blocked };

    // The lines in service: taken, and not yet ended.
    fn in_service(&self) -> LineSet
        ensures { result.bits ≡ (view self.now).in_service };

    // The line is pending from now on; NoSuchLine if the controller lacks it.
    fn raise(&mut self, line: u8) -> Result<Raised, ControllerFault>
        ensures fixed { ranks self.new ≡ ranks self.old }
        ensures leaves { Raises (view self.old) line result (view self.new) };

    // The masked lines are from now on those of the set; MaskOutside if it has a line that the controller lacks.
    fn mask(&mut self, set: LineSet) -> Result<(), ControllerFault>
        ensures fixed { ranks self.new ≡ ranks self.old }
        ensures leaves { Masks (view self.old) set.bits result (view self.new) };

    // The first deliverable line goes from pending into service; none if no line is deliverable.
    fn take(&mut self) -> Option<u8>
        ensures fixed { ranks self.new ≡ ranks self.old }
        ensures leaves { Takes (view self.old) result (view self.new) };

    // The first line in service leaves service; NothingInService if there is none.
    fn end(&mut self) -> Result<u8, ControllerFault>
        ensures fixed { ranks self.new ≡ ranks self.old }
        ensures leaves { Ends (view self.old) result (view self.new) };

    // the order that it tells is the order of the lines' levels
    ghost ordered: { (s : Self) (a b : ℕ) → (view s).above a b ≡ Self.Level.Level.above (ranks s a) (ranks s b) };

    // every value is in order, as it is made and after each call
    ghost sound: { (s : Self) → Sound (view s) };
}
