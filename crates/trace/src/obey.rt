// The commands after the start.
ghost use Rattle.std.specs.Prelude.{◌≡◌, ℕ};
ghost use Rattle.machine.specs.Whole.{model_of};
ghost use Rattle.trace.specs.Calls.{Called, SameStacks};
ghost use Rattle.trace.specs.Lines.{traced_by, Obeys};
ghost use Rattle.trace.specs.Stages.{head_stage, root_stage};

use crate::{HeadOn, RootOn, Saved, saved};
use controller::Controller;
use listing::{Listed, TraceFault};
use machine::{Machine, Running};
use model::{Call, Kernel, StageCall};
use spl::{HeadPolicy, RootPolicy};
use stage::Stage;
use trace_lines::Command;

// Makes a call of the machine: its answer is listed. It is inlined at each command, whose call is known there and so not matched
// once more.
#[inline(always)]
fn called<H: Controller, A: Stage, B: Stage>(
    machine: &mut Machine<Running, H, A, B>,
    call: Call,
) -> Result<Listed, TraceFault>
    ensures { Called (model_of H.Controller A.Stage B.Stage machine.old) call result (model_of H.Controller A.Stage B.Stage machine.new) }
{
    Ok(Listed::Answered(machine.call(call)?))
}

// Sets the level of a kernel, and saves the former one on its stack. Stages and stacks are of two types, so the kernel is matched.
fn set_level<H: Controller, C: Controller, D: Controller>(
    machine: &mut Machine<Running, H, HeadOn<C>, RootOn<D>>,
    saved: &mut Saved<'_>,
    kernel: Kernel,
    code: u8,
) -> Result<Listed, TraceFault>
    ensures lent { SameStacks saved.old saved.new }
    ensures obeys { Obeys (traced_by (model_of H.Controller (head_stage C.Controller) (root_stage D.Controller) machine.old) saved.old) (Command.SetLevel kernel code) result (traced_by (model_of H.Controller (head_stage C.Controller) (root_stage D.Controller) machine.new) saved.new) }
{
    match kernel {
        Kernel::Head => {
            saved::set_level(&HeadPolicy, machine, &mut saved.head, Kernel::Head, code)
        }
        Kernel::Root => {
            saved::set_level(&RootPolicy, machine, &mut saved.root, Kernel::Root, code)
        }
    }
}

// Sets the level of a kernel that was saved last on its stack, matched for the same reason.
fn restore_level<H: Controller, C: Controller, D: Controller>(
    machine: &mut Machine<Running, H, HeadOn<C>, RootOn<D>>,
    saved: &mut Saved<'_>,
    kernel: Kernel,
) -> Result<Listed, TraceFault>
    ensures lent { SameStacks saved.old saved.new }
    ensures obeys { Obeys (traced_by (model_of H.Controller (head_stage C.Controller) (root_stage D.Controller) machine.old) saved.old) (Command.RestoreLevel kernel) result (traced_by (model_of H.Controller (head_stage C.Controller) (root_stage D.Controller) machine.new) saved.new) }
{
    match kernel {
        Kernel::Head => {
            saved::restore_level(&HeadPolicy, machine, &mut saved.head, Kernel::Head)
        }
        Kernel::Root => {
            saved::restore_level(&RootPolicy, machine, &mut saved.root, Kernel::Root)
        }
    }
}

// Obeys a command: a call of the machine, or a level set with the stack of the kernel.
pub(crate) fn obey<H: Controller, C: Controller, D: Controller>(
    machine: &mut Machine<Running, H, HeadOn<C>, RootOn<D>>,
    saved: &mut Saved<'_>,
    command: Command,
) -> Result<Listed, TraceFault>
    ensures lent { SameStacks saved.old saved.new }
    ensures obeys { Obeys (traced_by (model_of H.Controller (head_stage C.Controller) (root_stage D.Controller) machine.old) saved.old) command result (traced_by (model_of H.Controller (head_stage C.Controller) (root_stage D.Controller) machine.new) saved.new) }
{
    match command {
        Command::Raise(line) => called(machine, Call::Raise(line)),
        Command::MaskHardware(set) => called(machine, Call::MaskHardware(set)),
        Command::Mask(kernel, set) => called(machine, Call::To(kernel, StageCall::Mask(set))),
        Command::Pump(n) => called(machine, Call::Pump(n)),
        Command::Next(kernel) => called(machine, Call::Next(kernel)),
        Command::Done(kernel) => called(machine, Call::To(kernel, StageCall::Done)),
        Command::Stall(kernel) => called(machine, Call::To(kernel, StageCall::Stall)),
        Command::Unstall(kernel) => called(machine, Call::To(kernel, StageCall::Unstall)),
        Command::SetLevel(kernel, code) => set_level(machine, saved, kernel, code),
        Command::RestoreLevel(kernel) => restore_level(machine, saved, kernel),
    }
}
