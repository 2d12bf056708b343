// The commands that set a level, with a stack of the saved ones.
ghost use Rattle.std.specs.Prelude.{◌≡◌, ℕ, ◌<◌};
ghost use Rattle.machine.specs.Whole.{model_of};
ghost use Rattle.level_stack.specs.Stacks.{SamePlaces};
ghost use Rattle.listing.specs.declared.listed.TraceFault.TheVariants.{Machine as machine_fault};
ghost use Rattle.trace.specs.Calls.{Linked, unknown_level, levels_in, without_last, Settable, SetsAgain, Saves, Restores};

use controller::Controller;
use level_stack::{LevelStack, StackFault};
use levels::{BsdLevel, Class};
use listing::{Listed, TraceFault};
use machine::{Machine, Running};
use model::{Answer, Fault, Kernel, MachineFault, Place};
use spl::{LevelFault, Policy};
use stage::Stage;

// The saved levels of both kernels, over places that their callers lend. That they stay the places lent is a fact of the loan,
// which each call says, since no type can hold it; and `saved` stays a parameter of its own, like a listing, as the checker takes no
// function that gives back a session in one value with what is lent.
#[derive(Drop)]
pub struct Saved<'a> {
    pub head: LevelStack<'a, Class>,
    pub root: LevelStack<'a, BsdLevel>,
}

impl<'a> Saved<'a> {
    // No level saved, over these places, whatever they hold.
    pub fn over(head: &'a mut [Class], root: &'a mut [BsdLevel]) -> Self
        ensures head_used { result.head.used ≡ 0 }
        ensures head_places { result.head.places.now ≡ head.old }
        ensures head_lent { result.head.places.ghost_name ≡ head.entry.ghost_name }
        ensures root_used { result.root.used ≡ 0 }
        ensures root_places { result.root.places.now ≡ root.old }
        ensures root_lent { result.root.places.ghost_name ≡ root.entry.ghost_name }
    {
        Saved {
            head: LevelStack::over(head),
            root: LevelStack::over(root),
        }
    }
}

fn unknown(kernel: Kernel) -> TraceFault
    ensures { result ≡ machine_fault (unknown_level kernel) }
{
    TraceFault::Machine(MachineFault {
        fault: Fault::Level(LevelFault::NoSuchLevel),
        place: Place::Kernel(kernel),
    })
}

// Sets the level that the code names, and saves the former one. Policy and stack are of the kernel's own types, so whoever knows
// the kernel hands over all three.
pub(crate) fn set_level<P: Policy, H: Controller, A: Stage, B: Stage>(
    policy: &P,
    machine: &mut Machine<Running, H, A, B>,
    saved: &mut LevelStack<'_, P::Kind>,
    kernel: Kernel,
    code: u8,
) -> Result<Listed, TraceFault>
    requires { Linked (P.Policy.named policy.now) (P.Policy.codes policy.now) ((model_of H.Controller A.Stage B.Stage machine.old).stage kernel) }
    ensures lent { SamePlaces saved.old saved.new }
    ensures saves { Saves (P.Policy.named policy.now) (P.Policy.codes policy.now) kernel code (model_of H.Controller A.Stage B.Stage machine.old) (levels_in saved.old) result (model_of H.Controller A.Stage B.Stage machine.new) (levels_in saved.new) }
{
    policy.level_from(code).ok_or(unknown(kernel))?;
    if saved.is_full() {
        return Err(TraceFault::Saved {
            fault: StackFault::Full,
            kernel,
        });
    }
    let former = machine.set_level(kernel, code)?;
    let level = policy.level_from(former).ok_or(unknown(kernel))?;
    let _ = saved.push(level);
    Ok(Listed::Answered(Answer::WasAtLevel(former)))
}

// The code by which a saved level is set; a level that cannot be set is refused.
fn code_to_set<P: Policy>(policy: &P, kernel: Kernel, level: P::Kind) -> Result<u8, TraceFault>
    ensures { Settable (P.Policy.named policy.now) (P.Policy.codes policy.now) kernel level result }
{
    policy.code_of(level).ok_or(unknown(kernel))
}

// Takes the level saved last off the stack.
fn drop_last<L: Copy>(saved: &mut LevelStack<'_, L>)
    ensures lent { SamePlaces saved.old saved.new }
    ensures drops { 0 < saved.old.used → levels_in saved.new ≡ without_last (levels_in saved.old) }
{
    let _ = saved.pop();
}

// Sets the level that the code names, and answers that code.
fn set_again<H: Controller, A: Stage, B: Stage>(
    machine: &mut Machine<Running, H, A, B>,
    kernel: Kernel,
    code: u8,
) -> Result<u8, TraceFault>
    ensures { SetsAgain kernel code (model_of H.Controller A.Stage B.Stage machine.old) result (model_of H.Controller A.Stage B.Stage machine.new) }
{
    let _former = machine.set_level(kernel, code)?;
    Ok(code)
}

// Sets the level that was saved last.
pub(crate) fn restore_level<P: Policy, H: Controller, A: Stage, B: Stage>(
    policy: &P,
    machine: &mut Machine<Running, H, A, B>,
    saved: &mut LevelStack<'_, P::Kind>,
    kernel: Kernel,
) -> Result<Listed, TraceFault>
    requires { Linked (P.Policy.named policy.now) (P.Policy.codes policy.now) ((model_of H.Controller A.Stage B.Stage machine.old).stage kernel) }
    ensures lent { SamePlaces saved.old saved.new }
    ensures restores { Restores (P.Policy.codes policy.now) kernel (model_of H.Controller A.Stage B.Stage machine.old) (levels_in saved.old) result (model_of H.Controller A.Stage B.Stage machine.new) (levels_in saved.new) }
{
    let Some(level) = saved.last() else {
        return Err(TraceFault::Saved {
            fault: StackFault::Empty,
            kernel,
        });
    };
    let code = code_to_set(policy, kernel, level)?;
    let now_at = set_again(machine, kernel, code)?;
    drop_last(saved);
    Ok(Listed::Restored(now_at))
}
