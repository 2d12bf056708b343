// Levels of interrupt lines and their order.
#![tactic(auto)]

ghost use Rattle.std.specs.Prelude.{◌≡◌, ℕ, ◌<◌, Bool, true, false, nat_lt, Some, ◌++◌, codes, decimal};
ghost use Rattle.levels.specs.Kinds.{code, Decodes, pair_above};
ghost use Rattle.std.proofs.Common.{rules};

use std::error::Error;
use std::fmt;

// A kind of level has an order: of two levels exactly one is above, or they are the same, and "above" carries through.
pub trait Level: Copy {
    // whether the first level is above the second
    ghost above: { Self → Self → Bool };

    // Whether this level is above the other.
    fn is_above(self, other: Self) -> bool
        ensures { result ≡ above self other };

    ghost asymmetric: { (a b : Self) → above a b ≡ true → above b a ≡ false };

    ghost connected: { (a b : Self) → above a b ≡ false → above b a ≡ false → a ≡ b };

    ghost transitive: { (a b c : Self) → above a b ≡ true → above b c ≡ true → above a c ≡ true };
}

// The level of a line of two cascaded chips: the master's input and the slave's. The smaller master input is higher, and at
// equal ones the smaller slave input.
#[derive(Clone, Copy, Debug, PartialEq, Eq, PartialOrd, Ord)]
pub struct PairLevel {
    pub master: u8,
    pub slave: u8,
}

impl Level for PairLevel {
    ghost above = { λ a b. pair_above a.master a.slave b.master b.slave };

    ghost asymmetric = { Prim.search rules };

    ghost connected = { Prim.search rules };

    ghost transitive = { Prim.search rules };

    fn is_above(self, other: PairLevel) -> bool {
        self < other
    }
}

// A priority class: the larger is higher.
#[derive(Clone, Copy, Debug, PartialEq, Eq, PartialOrd, Ord)]
pub struct Class(pub u8);

impl Level for Class {
    ghost above = { λ a b. nat_lt b.0 a.0 };

    ghost asymmetric = { Prim.search rules };

    ghost connected = { Prim.search rules };

    ghost transitive = { Prim.search rules };

    fn is_above(self, other: Class) -> bool {
        self > other
    }
}

// A place in a log: the smaller is higher.
#[derive(Clone, Copy, Debug, PartialEq, Eq, PartialOrd, Ord)]
pub struct LogPlace(pub u8);

impl Level for LogPlace {
    ghost above = { λ a b. nat_lt a.0 b.0 };

    ghost asymmetric = { Prim.search rules };

    ghost connected = { Prim.search rules };

    ghost transitive = { Prim.search rules };

    fn is_above(self, other: LogPlace) -> bool {
        other > self
    }
}

// The BSD interrupt priority levels, lowest first.
#[derive(Clone, Copy, Debug, PartialEq, Eq, PartialOrd, Ord)]
pub enum BsdLevel {
    None,
    SoftClock,
    SoftNet,
    Bio,
    Net,
    Tty,
    Clock,
    High,
}

impl BsdLevel {
    // The level's code, 0 for the lowest to 7.
    pub fn code(self) -> u8
        ensures { result ≡ code self }
    {
        self as u8
    }
}

// A code that no BSD level has.
#[derive(Clone, Copy, Debug, PartialEq, Eq)]
pub struct UnknownLevel(pub u8);

// The level that has the code: a code is at most 7.
impl TryFrom<u8> for BsdLevel {
    type Error = UnknownLevel;

    ghost try_from_gives = { Decodes };

    fn try_from(code: u8) -> Result<BsdLevel, UnknownLevel> {
        match code {
            0 => Ok(BsdLevel::None),
            1 => Ok(BsdLevel::SoftClock),
            2 => Ok(BsdLevel::SoftNet),
            3 => Ok(BsdLevel::Bio),
            4 => Ok(BsdLevel::Net),
            5 => Ok(BsdLevel::Tty),
            6 => Ok(BsdLevel::Clock),
            7 => Ok(BsdLevel::High),
            _ => Err(UnknownLevel(code)),
        }
    }
}

impl fmt::Display for UnknownLevel {
    ghost output = { λ e. Some (codes "no level has the code " ++ decimal e.0) };

    fn fmt<W: fmt::Write>(&self, f: &mut fmt::Formatter<W>) -> fmt::Result {
        write!(f, "no level has the code {}", self.0)
    }
}

impl Error for UnknownLevel {}

impl Level for BsdLevel {
    ghost above = { λ a b. nat_lt (code b) (code a) };

    ghost asymmetric = { Prim.search rules };

    ghost connected = { Prim.search rules };

    ghost transitive = { Prim.search rules };

    fn is_above(self, other: BsdLevel) -> bool {
        other < self
    }
}
