// What gives each line a level, for the spl layer.
ghost use Rattle.std.specs.Prelude.{◌≡◌, ℕ, true, Some, Option};
ghost use Rattle.spl.specs.Blocking.{Low};
ghost use Rattle.spl.specs.Codes.{Settable, Decodes};

use levels::Level;
use lines::LineSet;

// A policy gives each line a level above its lowest. Its levels that can be set, the lowest among them, have one code each, and a
// code stands for one level.
pub trait Policy {
    type Kind: Level;

    // the level of each line
    ghost levels: { Self → ℕ → Self.Kind };

    // the lowest level
    ghost least: { Self → Self.Kind };

    // the code of each level that can be set; none of any other
    ghost codes: { Self → Self.Kind → Option ℕ };

    // the level that each code stands for; none of any other number
    ghost named: { Self → ℕ → Option Self.Kind };

    // The level of the line with this number.
    fn level_of(&self, line: u8) -> Self::Kind
        ensures { result ≡ levels self.now line };

    // The lowest level.
    fn lowest(&self) -> Self::Kind
        ensures { result ≡ least self.now };

    // The code of a level, or none if it cannot be set.
    fn code_of(&self, level: Self::Kind) -> Option<u8>
        ensures { result ≡ codes self.now level };

    // The level that has the code, or none.
    fn level_from(&self, code: u8) -> Option<Self::Kind>
        ensures { result ≡ named self.now code };

    ghost higher: { (p : Self) (n : ℕ) → Self.Kind.Level.above (levels p n) (least p) ≡ true };

    ghost settable: { (p : Self) → Settable (codes p) (least p) };

    ghost distinct: { (p : Self) (a b : Self.Kind) (c : ℕ) → codes p a ≡ Some c → codes p b ≡ Some c → a ≡ b };

    ghost decodes: { (p : Self) (c : ℕ) → Decodes (codes p) c (named p c) };
}

// Whether the line's level is above the level given.
fn is_over<P: Policy>(policy: &P, line: u8, level: P::Kind) -> bool
    ensures { result ≡ P.Kind.Level.above (P.Policy.levels policy.now line) level }
{
    policy.level_of(line).is_above(level)
}

// The lines of the set whose level is not above the level given.
#[tactic(auto, using(crate::proofs::Lows::lowering_all))]
pub(crate) fn not_above<P: Policy>(policy: &P, level: P::Kind, lines: LineSet) -> LineSet
    ensures { Low lines.bits (λ n. P.Kind.Level.above (P.Policy.levels policy.now n) level) result.bits }
{
    let mut low = lines;
    for line in lines.lines() {
        if is_over(policy, line, level) {
            low = low.without(line);
        }
    }
    low
}
