// Picking the first line of a set, for every kind of level.
ghost use Rattle.std.specs.Prelude.{◌≡◌, ℕ, ◌<◌, Bool, true, false};
ghost use Rattle.lines.specs.Sets.{has};
ghost use Rattle.controller.specs.View.{ahead_by};
ghost use Rattle.controller.specs.Picks.{Picks, Over, winner};

use levels::Level;
use lines::LineSet;

// What gives each line a level, once for all.
pub trait Ranking {
    type Level: Level;

    // the level of each line
    ghost ranks: { ℕ → Self.Level };

    // whether the level of the first line is above that of the second
    ghost order: { ℕ → ℕ → Bool };

    // The level of the line with this number.
    fn level_of(line: u8) -> Self::Level
        ensures { result ≡ ranks line };

    ghost ordered: { (a b : ℕ) → order a b ≡ Self.Level.Level.above (ranks a) (ranks b) };
}

// Whether line `a` goes before line `b`: its level is higher, or the levels are equal and its number is larger.
fn goes_before<R: Ranking>(a: u8, b: u8) -> bool
    ensures { result ≡ ahead_by R.Ranking.order a b }
{
    let (first, second) = (R::level_of(a), R::level_of(b));
    first.is_above(second) || (!second.is_above(first) && b < a)
}

// Of the first line so far and another, the one that goes first.
fn better<R: Ranking>(best: Option<u8>, line: u8) -> u8
    ensures { result ≡ winner (ahead_by R.Ranking.order) best line }
{
    best.filter(|b| goes_before::<R>(*b, line)).unwrap_or(line)
}

// The first of the lines of the set.
pub fn first_of<R: Ranking>(set: LineSet) -> Option<u8>
    ensures { Picks (ahead_by R.Ranking.order) (λ n. has set.bits n ≡ true) result }
{
    let mut best: Option<u8> = None;
    for line in set.lines() {
        best = Some(better::<R>(best, line));
    }
    best
}

// The first of the lines of the set that are above every line of the other set.
pub fn first_over<R: Ranking>(set: LineSet, under: LineSet) -> Option<u8>
    ensures { Picks (ahead_by R.Ranking.order) (Over R.Ranking.order set.bits under.bits) result }
{
    let highest = first_of::<R>(under);
    first_of::<R>(set).filter(|n| highest.is_none_or(|m| R::level_of(*n).is_above(R::level_of(m))))
}
