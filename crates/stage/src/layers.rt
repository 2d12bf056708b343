// The stage made of layers: a stall layer on an spl layer of any policy on any controller.
ghost use Rattle.std.specs.Prelude.{◌≡◌, false};
ghost use Rattle.stage.specs.Layers.{policy_model, stage_model, code_number, SetsByCode};
ghost use Rattle.controller.proofs.Keeps.{masked_sound};

use crate::{Stage, told_by};
use controller::{Controller, ControllerFault, Raised};
use lines::LineSet;
use model::Question;
use spl::{LevelFault, Policy, Spl};
use stall::Stall;

// The stage on a controller: it tells what the controller tells, at the policy's lowest level and not stalled.
pub fn on<P: Policy, C: Controller>(policy: P, controller: C) -> Stall<Spl<P, C>>
    ensures own { (stage_model result).own ≡ C.Controller.view controller }
    ensures policy { (stage_model result).policy ≡ policy_model P.Policy P.Kind.Level policy }
    ensures lowest { (stage_model result).level ≡ (policy_model P.Policy P.Kind.Level policy).lowest }
    ensures unstalled { (stage_model result).stalled ≡ false }
{
    Stall::new(Spl::new(policy, controller))
}

// The code of the current level, 0 if it has none.
fn level_code<P: Policy, C: Controller>(layer: &Spl<P, C>) -> u8
    ensures { result ≡ code_number (P.Policy.codes layer.now.policy layer.now.level) }
{
    layer.policy().code_of(layer.level_now()).unwrap_or(0)
}

// Sets the level that the code names.
fn set_by_code<P: Policy, C: Controller>(
    layers: &mut Stall<Spl<P, C>>,
    code: u8,
) -> Result<(), LevelFault>
    ensures { SetsByCode code (stage_model layers.old) result (stage_model layers.new) }
{
    let level = layers
        .below
        .policy()
        .level_from(code)
        .ok_or(LevelFault::NoSuchLevel)?;
    layers.below.set_level(level)?;
    Ok(())
}

impl<P: Policy, C: Controller> Stage for Stall<Spl<P, C>> {
    ghost model = { λ s. stage_model s };

    ghost sound = { λ s. masked_sound _ (C.Controller.sound s.below.below) s.below.own.bits s.below.blocking.own_in };

    fn ask(&self, question: Question) -> LineSet {
        told_by(self, question)
    }

    #[tactic(auto, using(crate::proofs::Layered::raise_through))]
    fn raise(&mut self, line: u8) -> Result<Raised, ControllerFault> {
        self.below.raise(line)
    }

    #[tactic(auto, using(crate::proofs::Layered::mask_through))]
    fn mask(&mut self, set: LineSet) -> Result<(), ControllerFault> {
        self.below.mask(set)
    }

    #[tactic(auto, using(crate::proofs::Layered::take_through))]
    // Past the stall layer, whose own take says nothing of the settings of the layer below it.
    fn take(&mut self) -> Option<u8> {
        if self.stalled {
            None
        } else {
            self.below.take()
        }
    }

    #[tactic(auto, using(crate::proofs::Layered::end_through))]
    fn end(&mut self) -> Result<u8, ControllerFault> {
        self.below.end()
    }

    fn stall(&mut self) -> bool {
        Stall::stall(self)
    }

    fn unstall(&mut self) -> bool {
        Stall::unstall(self)
    }

    fn set_level(&mut self, code: u8) -> Result<u8, LevelFault> {
        let former = level_code(&self.below);
        set_by_code(self, code)?;
        Ok(former)
    }
}
