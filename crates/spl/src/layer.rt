// The spl layer: lines whose policy level is not above the current level are blocked.
ghost use Rattle.std.specs.Prelude.{◌≡◌};
ghost use Rattle.lines.specs.Sets.{union, Within};
ghost use Rattle.controller.specs.View.{set_masked, set_blocked};
ghost use Rattle.controller.specs.Calls.{Raises, Masks, Takes, Ends};
ghost use Rattle.spl.specs.Blocking.{Low, Blocking, MasksOwn};
ghost use Rattle.spl.specs.Codes.{Settable, SetsLevel, settable_prop};
ghost use Rattle.spl.specs.Blocked.{spl_sound};
ghost use Rattle.std.proofs.Common.{rules};

use crate::LevelFault;
use crate::policy::{Policy, not_above};
use controller::{Controller, ControllerFault, Raised};
use lines::LineSet;

#[derive(Drop)]
pub struct Spl<P: Policy, C: Controller> {
    policy: P,
    below: C,
    level: P::Kind,
    // the layer's own mask
    own: LineSet,
    // the lines whose policy level is not above the current level
    low: LineSet,
    // the mask below is the own mask together with the low lines
    pub ghost blocking: { Blocking (C.Controller.view below) (λ n. P.Kind.Level.above (P.Policy.levels policy n) level) own.bits low.bits },
    // the current level has a code
    pub ghost settable: { Settable (P.Policy.codes policy) level } by { settable_prop (P.Policy.codes policy) level },
}

impl<P: Policy, C: Controller> Spl<P, C> {
    ghost use Rattle.spl.specs.Layer.{layer_view};

    // The layer on a controller at the policy's lowest level: it tells what the controller tells, and writes nothing below.
    #[tactic(auto, using(crate::specs::Blocked::made_told))]
    pub fn new(policy: P, below: C) -> Self
        ensures told { layer_view result ≡ C.Controller.view below }
        ensures below { result.below ≡ below }
        ensures policy { result.policy ≡ policy }
        ensures level { result.level ≡ P.Policy.least policy }
    {
        let level = policy.lowest();
        let own = below.masked();
        Spl {
            policy,
            below,
            level,
            own,
            low: LineSet::EMPTY,
        }
    }

    // The policy.
    pub fn policy(&self) -> &P
        ensures { result.now ≡ self.now.policy }
    {
        &self.policy
    }

    // The current level.
    pub fn level_now(&self) -> P::Kind
        ensures { result ≡ self.now.level }
    {
        self.level
    }

    // The controller below.
    pub fn below(&self) -> &C
        ensures { result.now ≡ self.now.below }
    {
        &self.below
    }

    // Sets the level and answers the former one; a level that has no code is refused and nothing changes. Of what is told blocked
    // alone changes.
    pub fn set_level(&mut self, level: P::Kind) -> Result<P::Kind, LevelFault>
        ensures fixed { C.Controller.ranks self.new.below ≡ C.Controller.ranks self.old.below }
        ensures sets { SetsLevel (P.Policy.codes self.old.policy) self.old.level level result self.new.level (self.new ≡ self.old) }
        ensures policy { self.new.policy ≡ self.old.policy }
        ensures own { self.new.own ≡ self.old.own }
        ensures under { C.Controller.view self.new.below ≡ set_masked (C.Controller.view self.old.below) (union self.old.own.bits self.new.low.bits) }
        ensures told { layer_view self.new ≡ set_blocked (layer_view self.old) (union (C.Controller.view self.old.below).blocked self.new.low.bits) }
    {
        self.policy.code_of(level).ok_or(LevelFault::NoSuchLevel)?;
        let low = not_above(&self.policy, level, self.below.lines());
        let former = self.level;
        self.settle(level, self.own, low);
        Ok(former)
    }

    // The level, the own mask and the lines that the level blocks become these, and the mask below both sets together.
    fn settle(&mut self, level: P::Kind, own: LineSet, low: LineSet)
        requires settable { Settable (P.Policy.codes self.old.policy) level }
        requires own_in { Within own.bits (C.Controller.view self.old.below).lines }
        requires low_are { Low (C.Controller.view self.old.below).lines (λ n. P.Kind.Level.above (P.Policy.levels self.old.policy n) level) low.bits }
        ensures fixed { C.Controller.ranks self.new.below ≡ C.Controller.ranks self.old.below }
        ensures settings { (self.new.policy ≡ self.old.policy) × (self.new.level ≡ level) × (self.new.own ≡ own) × (self.new.low ≡ low) }
        ensures under { C.Controller.view self.new.below ≡ set_masked (C.Controller.view self.old.below) (union own.bits low.bits) }
    {
        self.level = level;
        self.own = own;
        self.low = low;
        let _ = self.below.mask(own.union(low));
    }
}

impl<P: Policy, C: Controller> Controller for Spl<P, C> {
    type Level = C::Level;

    ghost use Rattle.spl.specs.Layer.{layer_view, SameSettings};

    ghost view = { λ s. layer_view s };

    ghost ranks = { λ s. C.Controller.ranks s.below };

    ghost ordered = { Prim.search rules };

    ghost sound = { λ s. spl_sound _ _ s.own.bits s.low.bits s.blocking (C.Controller.sound s.below) };

    fn lines(&self) -> LineSet {
        self.below.lines()
    }

    fn level(&self, line: u8) -> Result<C::Level, ControllerFault> {
        self.below.level(line)
    }

    fn pending(&self) -> LineSet {
        self.below.pending()
    }

    fn masked(&self) -> LineSet {
        self.own
    }

    fn blocked(&self) -> LineSet {
        self.below.blocked().union(self.low)
    }

    fn in_service(&self) -> LineSet {
        self.below.in_service()
    }

    // Raises below.
    fn raise(&mut self, line: u8) -> Result<Raised, ControllerFault>
        ensures fixed { C.Controller.ranks self.new.below ≡ C.Controller.ranks self.old.below }
        ensures leaves { Raises (layer_view self.old) line result (layer_view self.new) }
        ensures settings { SameSettings self.old self.new }
        ensures under { Raises (C.Controller.view self.old.below) line result (C.Controller.view self.new.below) }
    {
        self.below.raise(line)
    }

    // The own mask becomes the set, and the mask below the set together with the lines that the level blocks.
    fn mask(&mut self, set: LineSet) -> Result<(), ControllerFault>
        ensures fixed { C.Controller.ranks self.new.below ≡ C.Controller.ranks self.old.below }
        ensures leaves { Masks (layer_view self.old) set.bits result (layer_view self.new) }
        ensures settings { (self.new.policy ≡ self.old.policy) × (self.new.level ≡ self.old.level) × (self.new.low ≡ self.old.low) }
        ensures own { MasksOwn (C.Controller.view self.old.below) self.old.low.bits set.bits result (self.new.own.bits ≡ set.bits) (self.new ≡ self.old) (C.Controller.view self.new.below) }
    {
        if !set.is_within(self.below.lines()) {
            return Err(ControllerFault::MaskOutside);
        }
        self.settle(self.level, set, self.low);
        Ok(())
    }

    // Takes below.
    fn take(&mut self) -> Option<u8>
        ensures fixed { C.Controller.ranks self.new.below ≡ C.Controller.ranks self.old.below }
        ensures leaves { Takes (layer_view self.old) result (layer_view self.new) }
        ensures settings { SameSettings self.old self.new }
        ensures under { Takes (C.Controller.view self.old.below) result (C.Controller.view self.new.below) }
    {
        self.below.take()
    }

    // Ends below.
    fn end(&mut self) -> Result<u8, ControllerFault>
        ensures fixed { C.Controller.ranks self.new.below ≡ C.Controller.ranks self.old.below }
        ensures leaves { Ends (layer_view self.old) result (layer_view self.new) }
        ensures settings { SameSettings self.old self.new }
        ensures under { Ends (C.Controller.view self.old.below) result (C.Controller.view self.new.below) }
    {
        self.below.end()
    }
}
