// The routes of the hardware's lines, as sets of them.
#![tactic(auto)]

ghost use Rattle.std.specs.Prelude.{◌≡◌};
ghost use Rattle.lines.specs.Sets.{common};
ghost use Rattle.model.specs.declared.calls.Kernel.TheVariants.{Head as head, Root as root};
ghost use Rattle.model.specs.Machine.{routed};
ghost use Rattle.routes.specs.Sets.{routes_of, with_flag};

use lines::LineSet;

// The route of one line.
#[derive(Clone, Copy, Debug, PartialEq, Eq)]
pub struct Route {
    pub head_handles: bool,
    pub head_passes: bool,
    pub root_handles: bool,
}

// The routes of all lines, as sets of them.
#[derive(Clone, Copy, Debug, PartialEq, Eq)]
pub struct Routes {
    pub head_handles: LineSet,
    pub head_passes: LineSet,
    pub root_handles: LineSet,
}

// The set with the line if the flag is set, else without it.
fn with_flag(set: LineSet, line: u8, flag: bool) -> LineSet
    ensures { result.bits ≡ with_flag set.bits line flag }
{
    if flag {
        set.with(line)
    } else {
        set.without(line)
    }
}

impl Routes {
    // With the line's route set anew.
    pub fn with(self, line: u8, route: Route) -> Routes
        ensures head { result.head_handles.bits ≡ with_flag self.head_handles.bits line route.head_handles }
        ensures passed { result.head_passes.bits ≡ with_flag self.head_passes.bits line route.head_passes }
        ensures root { result.root_handles.bits ≡ with_flag self.root_handles.bits line route.root_handles }
    {
        Routes {
            head_handles: with_flag(self.head_handles, line, route.head_handles),
            head_passes: with_flag(self.head_passes, line, route.head_passes),
            root_handles: with_flag(self.root_handles, line, route.root_handles),
        }
    }

    // The lines routed to the head: those that it handles.
    pub fn to_head(self) -> LineSet
        ensures { result.bits ≡ routed (routes_of self) head }
    {
        self.head_handles
    }

    // The lines routed to the root: those that it handles and the head passes on.
    pub fn to_root(self) -> LineSet
        ensures { result.bits ≡ routed (routes_of self) root }
    {
        self.head_passes.common(self.root_handles)
    }
}
