// What a controller tells to a question.
ghost use Rattle.std.specs.Prelude.{◌≡◌};
ghost use Rattle.model.specs.Machine.{tells};

use controller::Controller;
use lines::LineSet;
use model::Question;

// The controller's lines, or one of its four sets.
pub fn told_by<C: Controller>(controller: &C, question: Question) -> LineSet
    ensures { result.bits ≡ tells (C.Controller.view controller.now) question }
{
    match question {
        Question::Lines => controller.lines(),
        Question::Pending => controller.pending(),
        Question::Masked => controller.masked(),
        Question::Blocked => controller.blocked(),
        Question::InService => controller.in_service(),
    }
}
