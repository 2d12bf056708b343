// The calls of a machine that runs.
ghost use Rattle.std.specs.Prelude.{◌≡◌, Ok};
ghost use Rattle.controller.specs.Calls.{Masks, Ends};
ghost use Rattle.model.specs.declared.calls.Kernel.TheVariants.{Head as head, Root as root};
ghost use Rattle.model.specs.declared.calls.StageCall.TheVariants.{Done as done_call, Mask as mask_call, Stall as stall_call, Unstall as unstall_call, SetLevel as level_call};
ghost use Rattle.model.specs.declared.calls.Call.TheVariants.{Raise as raise_call, MaskHardware as hardware_call, Next as next_call, To as to_call, Ask as ask_call};
ghost use Rattle.model.specs.declared.calls.Answer.TheVariants.{Raised as raised, Masked as mask_set, Delivered as delivered, Ended as ended, WasStalled as was_stalled, WasAtLevel as was_at_level, Told as set_told};
ghost use Rattle.model.specs.declared.fault.Fault.TheVariants.{Controller as controllers_own, Level as of_a_level};
ghost use Rattle.model.specs.Stage.{Through, SetsStageLevel};
ghost use Rattle.model.specs.Machine.{Step};
ghost use Rattle.machine.specs.Whole.{model_of};
ghost use Rattle.machine.specs.Answering.{replied, next_reply, Placed};
ghost use Rattle.stage.specs.Gates.{Stands};

use crate::{Asked, Live, Machine, Running};
use controller::{Controller, Raised};
use lines::LineSet;
use model::{At, HeadSeat, Kernel, MachineFault, Place, Question, RootSeat, Seat};
use stage::{Hindrance, Stage, standing, told_by};

// The first line in service at the stage of a kernel leaves service.
fn end_at<K: Seat, S: Stage>(stage: &mut S) -> Result<u8, At<K>>
    ensures { Placed controllers_own (Through Ends) (S.Stage.model stage.old) result (S.Stage.model stage.new) }
{
    Ok(stage.end()?)
}

// The masked lines of the stage of a kernel are from now on those of the set.
fn mask_at<K: Seat, S: Stage>(stage: &mut S, set: LineSet) -> Result<(), At<K>>
    ensures { Placed controllers_own (Through (λ v. Masks v set.bits)) (S.Stage.model stage.old) result (S.Stage.model stage.new) }
{
    Ok(stage.mask(set)?)
}

// Sets the level that the code names at the stage of a kernel, and answers the former one's code.
fn set_level_at<K: Seat, S: Stage>(stage: &mut S, code: u8) -> Result<u8, At<K>>
    ensures { Placed of_a_level (SetsStageLevel code) (S.Stage.model stage.old) result (S.Stage.model stage.new) }
{
    Ok(stage.set_level(code)?)
}

impl<H: Controller, A: Stage, B: Stage> Machine<Running, H, A, B> {
    // Raises a line at the hardware.
    pub fn raise(&mut self, line: u8) -> Result<Raised, MachineFault>
        ensures { Step (model_of H.Controller A.Stage B.Stage self.old) (raise_call line) (replied raised result) (model_of H.Controller A.Stage B.Stage self.new) }
    {
        Ok(self.hardware.raise(line)?)
    }
}

// What a running machine and one that is closed are asked.
impl<P: Asked, H: Controller, A: Stage, B: Stage> Machine<P, H, A, B> {
    // The lines of a place, or one of its four sets.
    pub fn ask(&self, place: Place, question: Question) -> LineSet
        ensures { Step (model_of H.Controller A.Stage B.Stage self.now) (ask_call place question) (Ok (set_told result)) (model_of H.Controller A.Stage B.Stage self.now) }
    {
        match place {
            Place::Hardware => told_by(&self.hardware, question),
            Place::Kernel(Kernel::Head) => self.head.ask(question),
            Place::Kernel(Kernel::Root) => self.root.ask(question),
        }
    }
}

// What every machine that runs can be told.
impl<P: Live, H: Controller, A: Stage, B: Stage> Machine<P, H, A, B> {
    // Masks lines at the hardware.
    pub fn mask_hardware(&mut self, set: LineSet) -> Result<(), MachineFault>
        ensures { Step (model_of H.Controller A.Stage B.Stage self.old) (hardware_call set) (replied (λ _. mask_set) result) (model_of H.Controller A.Stage B.Stage self.new) }
    {
        Ok(self.hardware.mask(set)?)
    }

    // The first deliverable line of the head's stage, or none.
    pub fn next_for_head(&mut self) -> Option<u8>
        ensures { Step (model_of H.Controller A.Stage B.Stage self.old) (next_call head) (Ok (delivered result)) (model_of H.Controller A.Stage B.Stage self.new) }
    {
        self.head.take()
    }

    // How the head stands ahead of the root.
    fn before_root(&self) -> Result<(), Hindrance>
        ensures { Stands (A.Stage.model self.now.head) result }
    {
        standing(&self.head)
    }

    // The first deliverable line of the root's stage or none, unless the head holds the root or is busy.
    pub fn next_for_root(&mut self) -> Result<Option<u8>, Hindrance>
        ensures { Step (model_of H.Controller A.Stage B.Stage self.old) (next_call root) (next_reply result) (model_of H.Controller A.Stage B.Stage self.new) }
    {
        self.before_root()?;
        Ok(self.root.take())
    }

    // The first line in service at the kernel's stage leaves service.
    pub fn done(&mut self, kernel: Kernel) -> Result<u8, MachineFault>
        ensures { Step (model_of H.Controller A.Stage B.Stage self.old) (to_call kernel done_call) (replied ended result) (model_of H.Controller A.Stage B.Stage self.new) }
    {
        match kernel {
            Kernel::Head => Ok(end_at::<HeadSeat, A>(&mut self.head)?),
            Kernel::Root => Ok(end_at::<RootSeat, B>(&mut self.root)?),
        }
    }

    // The masked lines of the kernel's stage are from now on those of the set.
    pub fn mask(&mut self, kernel: Kernel, set: LineSet) -> Result<(), MachineFault>
        ensures { Step (model_of H.Controller A.Stage B.Stage self.old) (to_call kernel (mask_call set)) (replied (λ _. mask_set) result) (model_of H.Controller A.Stage B.Stage self.new) }
    {
        match kernel {
            Kernel::Head => Ok(mask_at::<HeadSeat, A>(&mut self.head, set)?),
            Kernel::Root => Ok(mask_at::<RootSeat, B>(&mut self.root, set)?),
        }
    }

    // Stalls the kernel's stage, and answers whether it was stalled. The rules name two calls, so no flag stands for them.
    pub fn stall(&mut self, kernel: Kernel) -> bool
        ensures { Step (model_of H.Controller A.Stage B.Stage self.old) (to_call kernel stall_call) (Ok (was_stalled result)) (model_of H.Controller A.Stage B.Stage self.new) }
    {
        match kernel {
            Kernel::Head => self.head.stall(),
            Kernel::Root => self.root.stall(),
        }
    }

    // Lets the kernel's stage go on, and answers whether it was stalled.
    pub fn unstall(&mut self, kernel: Kernel) -> bool
        ensures { Step (model_of H.Controller A.Stage B.Stage self.old) (to_call kernel unstall_call) (Ok (was_stalled result)) (model_of H.Controller A.Stage B.Stage self.new) }
    {
        match kernel {
            Kernel::Head => self.head.unstall(),
            Kernel::Root => self.root.unstall(),
        }
    }

    // Sets the level that the code names at the kernel's stage, and answers the former one's code.
    pub fn set_level(&mut self, kernel: Kernel, code: u8) -> Result<u8, MachineFault>
        ensures { Step (model_of H.Controller A.Stage B.Stage self.old) (to_call kernel (level_call code)) (replied was_at_level result) (model_of H.Controller A.Stage B.Stage self.new) }
    {
        match kernel {
            Kernel::Head => Ok(set_level_at::<HeadSeat, A>(&mut self.head, code)?),
            Kernel::Root => Ok(set_level_at::<RootSeat, B>(&mut self.root, code)?),
        }
    }
}
