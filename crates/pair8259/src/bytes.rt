// A set of the pair's lines in two bytes.
ghost use Rattle.std.specs.Prelude.{◌≡◌, ℕ, ◌+◌, ◌*◌, ◌<◌, Bool, true, false, not};
ghost use Rattle.lines.specs.Sets.{has, union, common, minus, only};
ghost use Rattle.pair8259.specs.Chips.{joined, Cascaded};

use lines::{LineSet, byte_with, byte_without};

// The master's byte and the slave's.
#[derive(Clone, Copy, Debug, PartialEq, Eq)]
pub(crate) struct Bytes {
    pub(crate) master: u8,
    pub(crate) slave: u8,
}

// The two bytes of a set: of other lines nothing is kept.
impl From<LineSet> for Bytes {
    ghost from_gives = { λ set bytes. joined bytes.master bytes.slave ≡ common set.bits 0xfffb };

    #[tactic(auto, using(crate::specs::Joined::split_joined))]
    fn from(set: LineSet) -> Bytes {
        let [master, slave, ..] = set.bits.to_le_bytes();
        Bytes { master, slave }
    }
}

impl Bytes {
    // The lines of the two bytes.
    #[tactic(auto, unfolding(crate::specs::Chips::joined))]
    pub(crate) fn lines(self) -> LineSet
        ensures { result.bits ≡ joined self.master self.slave }
    {
        LineSet::new(u64::from(u16::from_le_bytes([self.master, self.slave]))).without(2)
    }

    // With a line of the pair besides.
    #[tactic(auto, using(crate::specs::Joined::bytes))]
    pub(crate) fn with(self, line: u8) -> Bytes
        requires { has 0xfffb line ≡ true }
        ensures { joined result.master result.slave ≡ union (joined self.master self.slave) (only line) }
    {
        if line < 8 {
            Bytes {
                master: byte_with(self.master, line),
                ..self
            }
        } else {
            Bytes {
                slave: byte_with(self.slave, line - 8),
                ..self
            }
        }
    }

    // Without the line.
    #[tactic(auto, using(crate::specs::Joined::bytes))]
    pub(crate) fn without(self, line: u8) -> Bytes
        ensures { joined result.master result.slave ≡ minus (joined self.master self.slave) (only line) }
    {
        if line < 8 {
            Bytes {
                master: byte_without(self.master, line),
                ..self
            }
        } else {
            Bytes {
                slave: byte_without(self.slave, line - 8),
                ..self
            }
        }
    }

    // The same lines, with the master's bit 2 as the slave's byte wants it.
    #[tactic(auto, using(crate::specs::Joined::cascade))]
    pub(crate) fn cascaded(self) -> Bytes
        ensures linked { Cascaded result.master result.slave }
        ensures same { joined result.master result.slave ≡ joined self.master self.slave }
    {
        let master = if self.slave == 0 {
            byte_without(self.master, 2)
        } else {
            byte_with(self.master, 2)
        };
        Bytes { master, ..self }
    }
}
