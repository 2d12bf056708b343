// The promises over whole runs, each as the contract of a function.
ghost use Rattle.std.specs.Prelude.{ℕ, min};
ghost use Rattle.controller.specs.Calls.{Raises, Masks, Takes, Ends};
ghost use Rattle.model.specs.Machine.{before};
ghost use Rattle.model.specs.Run.{Fresh};
ghost use Rattle.model.specs.Requests.{strike};
ghost use Rattle.model.specs.Promises.{AlikeAnswers, NoneLostNoneDoubled, Undisturbed, Apart, PumpCounts, Determined, PumpDetermined, OneByOne, RoutedMeans, ToldThrough, EveryListRuns, PromisesKept};
ghost use Rattle.model.specs.Examples.{examples, ExamplesHold};

use crate::Kernel;
use crate::shown::whole_runs;

// Machines made alike answer one list of calls alike, from a fresh start.
pub fn alike_machines_answer_alike()
    ensures { AlikeAnswers Fresh }
{
    whole_runs();
}

// At the hardware and at each kernel the requests of a line come and go in turn, once merged ones are struck, and one has
// come last exactly when the line is pending.
pub fn no_request_is_lost_or_doubled()
    ensures { NoneLostNoneDoubled strike }
{
    whole_runs();
}

// Whatever is called of a kernel and of those behind it, the hardware and the kernels before it answer the same.
pub fn no_kernel_disturbs_those_ahead()
    ensures { (k : Kernel) → Undisturbed (λ j. before j k) }
{
    whole_runs();
}

// Whatever is called of the root, all other calls are answered the same.
pub fn root_disturbs_no_other()
    ensures { Apart Kernel.Root }
{
    whole_runs();
}

// A pump's count is the smaller of the number asked for and the number of deliverable lines.
pub fn pump_counts_the_smaller()
    ensures { PumpCounts min }
{
    whole_runs();
}

// What a take answers and leaves is determined by what the controller tells.
pub fn take_is_determined()
    ensures { Determined Takes }
{
    whole_runs();
}

// And so is what a pump answers and leaves.
pub fn pump_is_determined()
    ensures { PumpDetermined }
{
    whole_runs();
}

// A pump's arrivals are the lines that go when lines are taken and ended one after another.
pub fn arrivals_are_taken_and_ended()
    ensures { OneByOne }
{
    whole_runs();
}

// A line is routed to a kernel exactly when the kernel handles it and every kernel before it passes it on.
pub fn routed_means_handled_and_passed()
    ensures { RoutedMeans }
{
    whole_runs();
}

// A stage is a controller by what it tells: a controller's call made there is the same call on what it tells.
pub fn stage_is_a_controller()
    ensures { ((n : ℕ) → ToldThrough (λ v. Raises v n)) × ((s : ℕ) → ToldThrough (λ v. Masks v s)) × ToldThrough Takes × ToldThrough Ends }
{
    whole_runs();
}

// The calls of every list have answers, from a fresh start.
pub fn every_list_runs()
    ensures { EveryListRuns Fresh }
{
    whole_runs();
}

// All promises of one run, of every run from a fresh start.
pub fn promises_hold_of_every_run()
    ensures { PromisesKept Fresh }
{
    whole_runs();
}

// The played examples have the answers that the list says, and no others.
pub fn examples_are_played()
    ensures { ExamplesHold examples }
{
    whole_runs();
}
