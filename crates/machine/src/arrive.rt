// One arrival: a line leaves the hardware and comes to the kernels that it is routed to.
ghost use Rattle.machine.specs.Whole.{model_of};
ghost use Rattle.machine.specs.Arriving.{Arrives};

use crate::{Live, Machine};
use controller::Controller;
use stage::{Stage, deliver, pass};

impl<P: Live, H: Controller, A: Stage, B: Stage> Machine<P, H, A, B> {
    // The first deliverable line of the hardware arrives, if there is one.
    pub(crate) fn arrive(&mut self) -> Option<u8>
        ensures { Arrives (model_of H.Controller A.Stage B.Stage self.old) result (model_of H.Controller A.Stage B.Stage self.new) }
    {
        let line = pass(&mut self.hardware)?;
        deliver(&mut self.head, self.routes.to_head(), line);
        deliver(&mut self.root, self.routes.to_root(), line);
        Some(line)
    }
}
