// The interface of a kernel's stage.
ghost use Rattle.std.specs.Prelude.{◌≡◌, true, false};
ghost use Rattle.controller.specs.View.{Sound};
ghost use Rattle.controller.specs.Calls.{Raises, Masks, Takes, Ends};
ghost use Rattle.model.specs.Stage.{StageModel, told, Through, SetsStalled, SetsStageLevel};
ghost use Rattle.model.specs.Machine.{tells};

use controller::{ControllerFault, Raised};
use lines::LineSet;
use model::Question;
use spl::LevelFault;

// A stage is a controller with a mask of its own, under a level and a stall bit. A refused call leaves it as it was.
pub trait Stage {
    // what it is to the machine
    ghost model: { Self → StageModel };

    // Its lines, or one of its four sets.
    fn ask(&self, question: Question) -> LineSet
        ensures { result.bits ≡ tells (told (model self.now)) question };

    // The line is pending from now on; NoSuchLine if the stage lacks it.
    fn raise(&mut self, line: u8) -> Result<Raised, ControllerFault>
        ensures { Through (λ v. Raises v line) (model self.old) result (model self.new) };

    // The masked lines are from now on those of the set; MaskOutside if it has a line that the stage lacks.
    fn mask(&mut self, set: LineSet) -> Result<(), ControllerFault>
        ensures { Through (λ v. Masks v set.bits) (model self.old) result (model self.new) };

    // The first deliverable line goes into service; none if no line is deliverable.
    fn take(&mut self) -> Option<u8>
        ensures { Through Takes (model self.old) result (model self.new) };

    // The first line in service leaves service; NothingInService if there is none.
    fn end(&mut self) -> Result<u8, ControllerFault>
        ensures { Through Ends (model self.old) result (model self.new) };

    // Sets the stall bit, and answers the former one. The rules name two calls, stall and unstall, so no flag stands for them.
    fn stall(&mut self) -> bool
        ensures { SetsStalled true (model self.old) result (model self.new) };

    // Clears the stall bit, and answers the former one.
    fn unstall(&mut self) -> bool
        ensures { SetsStalled false (model self.old) result (model self.new) };

    // Sets the level that the code names, and answers the former one's code; NoSuchLevel if it names none.
    fn set_level(&mut self, code: u8) -> Result<u8, LevelFault>
        ensures { SetsStageLevel code (model self.old) result (model self.new) };

    // every value is in order, as it is made and after each call
    ghost sound: { (s : Self) → Sound (model s).own };
}
