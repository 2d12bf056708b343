// Raising a set of lines again.
ghost use Rattle.std.specs.Prelude.{◌≡◌};
ghost use Rattle.lines.specs.Sets.{union, Within};
ghost use Rattle.controller.specs.View.{set_pending};

use controller::Controller;
use lines::LineSet;

// Raises each line of the set.
pub(crate) fn raise_lines<C: Controller>(below: &mut C, set: LineSet)
    requires { Within set.bits (C.Controller.view below.old).lines }
    ensures fixed { C.Controller.ranks below.new ≡ C.Controller.ranks below.old }
    ensures leaves { C.Controller.view below.new ≡ set_pending (C.Controller.view below.old) (union (C.Controller.view below.old).pending set.bits) }
{
    for line in set.lines() {
        let _ = below.raise(line);
    }
}
