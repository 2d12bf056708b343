// A set of interrupt lines 0 to 63 as a 64-bit number: bit n is set exactly when line n is in the set.
ghost use Rattle.std.specs.Prelude.{◌≡◌, ℕ, ◌<◌, Bool, true, false, Decides, Some};
ghost use Rattle.lines.specs.Sets.{has, union, common, minus, only, size, Within, with_line, Finds, Pops};
ghost use Rattle.std.specs.Iterator.{at_most};

use std::fmt;

#[derive(Clone, Copy, Debug, PartialEq, Eq)]
pub struct LineSet {
    pub bits: u64,
}

impl LineSet {
    // No line.
    pub const EMPTY: LineSet = LineSet { bits: 0 };

    // The lines 0 to 63.
    pub const ALL: LineSet = LineSet { bits: u64::MAX };

    // The set that the number stands for.
    pub fn new(bits: u64) -> LineSet
        ensures { result.bits ≡ bits }
    {
        LineSet { bits }
    }

    // Whether the line is in the set: a number from 64 on is in none.
    #[tactic(auto, using(crate::proofs::Words::word), unfolding(crate::specs::Sets::has))]
    pub fn contains(self, line: u8) -> bool
        ensures { result ≡ has self.bits line }
    {
        line < 64 && (self.bits >> line) & 1 == 1
    }

    // The set with the line besides: for a number from 64 on, the set as it is.
    #[tactic(auto, using(crate::proofs::Words::word), unfolding(crate::specs::Sets::union, crate::specs::Sets::only))]
    pub fn with(self, line: u8) -> LineSet
        ensures { result.bits ≡ with_line 64 self.bits line }
    {
        if line < 64 {
            LineSet::new(self.bits | (1 << line))
        } else {
            self
        }
    }

    // The set without the line: for a number from 64 on, the set as it is.
    #[tactic(auto, using(crate::proofs::Words::word))]
    pub fn without(self, line: u8) -> LineSet
        ensures { result.bits ≡ minus self.bits (only line) }
    {
        if line < 64 {
            LineSet::new(self.bits & !(1 << line))
        } else {
            self
        }
    }

    // The lines of either set.
    #[tactic(auto, unfolding(crate::specs::Sets::union))]
    pub fn union(self, other: LineSet) -> LineSet
        ensures { result.bits ≡ union self.bits other.bits }
    {
        LineSet::new(self.bits | other.bits)
    }

    // The lines of both sets.
    #[tactic(auto, unfolding(crate::specs::Sets::common))]
    pub fn common(self, other: LineSet) -> LineSet
        ensures { result.bits ≡ common self.bits other.bits }
    {
        LineSet::new(self.bits & other.bits)
    }

    // The lines of this set that are not in the other.
    #[tactic(auto, using(crate::proofs::Words::word))]
    pub fn minus(self, other: LineSet) -> LineSet
        ensures { result.bits ≡ minus self.bits other.bits }
    {
        LineSet::new(self.bits & !other.bits)
    }

    // Whether each line of this set is in the other.
    #[tactic(auto, using(crate::proofs::Algebra::within))]
    pub fn is_within(self, other: LineSet) -> bool
        ensures { Decides result (Within self.bits other.bits) }
    {
        self.minus(other).is_empty()
    }

    // Whether it has no line.
    pub fn is_empty(self) -> bool
        ensures { Decides result (self.bits ≡ 0) }
    {
        self.bits == 0
    }

    // How many lines it has.
    #[tactic(auto, unfolding(crate::specs::Sets::size))]
    pub fn count(self) -> u32
        ensures { result ≡ size self.bits }
    {
        self.bits.count_ones()
    }

    // Its lowest line.
    #[tactic(auto, using(crate::proofs::Lowest::lowest_at))]
    pub fn lowest(self) -> Option<u8>
        ensures { Finds self.bits result }
    {
        (!self.is_empty()).then_some(self.bits.trailing_zeros() as u8)
    }

    // Takes the lowest line out of the set.
    pub fn pop_lowest(&mut self) -> Option<u8>
        ensures { Pops self.old.bits result self.new.bits }
    {
        let line = self.lowest()?;
        *self = self.without(line);
        Some(line)
    }

    // Its lines in rising order, each found in one step.
    pub fn lines(self) -> Lines
        ensures { result.rest.bits ≡ self.bits }
    {
        Lines { rest: self }
    }
}

// The lines that a byte stands for.
impl From<u8> for LineSet {
    ghost from_gives = { λ byte set. set.bits ≡ byte };

    fn from(byte: u8) -> LineSet {
        LineSet::new(u64::from(byte))
    }
}

// A set prints in `{:x}` as its number does.
impl fmt::HasDigits for LineSet {
    ghost word = { λ set. Some set.bits };

    fn bits(self) -> (u64, u64) {
        (0, self.bits)
    }
}

// The lines of a set in rising order: `rest` has still to come.
#[derive(Clone, Copy, Drop)]
pub struct Lines {
    pub rest: LineSet,
}

impl Iterator for Lines {
    type Item = u8;

    ghost can_next = { λ _. Unit {0} };

    ghost next_gives = { λ s r t. Pops s.rest.bits r t.rest.bits };

    ghost remaining = { λ s. at_most (size s.rest.bits) };

    #[tactic(auto, using(crate::proofs::Sizes::size_out))]
    fn next(&mut self) -> Option<u8> {
        self.rest.pop_lowest()
    }
}
