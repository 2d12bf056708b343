// What is shown of whole runs, all in one place.
ghost use Rattle.std.specs.Prelude.{ℕ, min};
ghost use Rattle.controller.specs.Calls.{Raises, Masks, Takes, Ends};
ghost use Rattle.model.specs.Machine.{before};
ghost use Rattle.model.specs.Run.{Fresh};
ghost use Rattle.model.specs.Requests.{strike};
ghost use Rattle.model.specs.Promises.{AlikeAnswers, NoneLostNoneDoubled, Undisturbed, Apart, PumpCounts, Determined, PumpDetermined, OneByOne, RoutedMeans, ToldThrough, EveryListRuns, PromisesKept};
ghost use Rattle.model.specs.Examples.{examples, ExamplesHold};

use crate::Kernel;

pub(crate) fn whole_runs()
    ensures alike { AlikeAnswers Fresh }
    ensures turns { NoneLostNoneDoubled strike }
    ensures ahead { (k : Kernel) → Undisturbed (λ j. before j k) }
    ensures apart { Apart Kernel.Root }
    ensures counts { PumpCounts min }
    ensures take { Determined Takes }
    ensures pump { PumpDetermined }
    ensures passes { OneByOne }
    ensures routed { RoutedMeans }
    ensures stage { ((n : ℕ) → ToldThrough (λ v. Raises v n)) × ((s : ℕ) → ToldThrough (λ v. Masks v s)) × ToldThrough Takes × ToldThrough Ends }
    ensures runs { EveryListRuns Fresh }
    ensures played { ExamplesHold examples }
    ensures whole { PromisesKept Fresh }
{}
