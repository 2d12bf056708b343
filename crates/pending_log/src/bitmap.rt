// A set of 64 lines as a bitmap of two levels.
ghost use Rattle.std.specs.Prelude.{◌≡◌, ℕ, ◌<◌, not, set, slice_index, slice_set};
ghost use Rattle.lines.specs.Sets.{minus, only, with_line, Finds};
ghost use Rattle.pending_log.specs.Bytes.{flat, Upper, UpperOf, Block, upper_written};

use lines::{LineSet, byte_with, byte_without};

// Byte i has the lines from 8 i on. Bit i of the upper byte is set exactly when byte i is not zero.
#[derive(Clone, Copy, Debug, PartialEq, Eq)]
pub struct Bitmap {
    bytes: [u8; 8],
    upper: u8,
    ghost fits: { (i : ℕ) → slice_index bytes i < 256 },
    ghost summary: { Upper bytes upper },
}

// The upper byte once byte i has been written.
fn upper_written(upper: u8, i: u8, byte: u8) -> u8
    ensures { result ≡ upper_written upper i byte }
{
    if byte == 0 {
        byte_without(upper, i)
    } else {
        byte_with(upper, i)
    }
}

impl Bitmap {
    // The bitmap of no line.
    #[tactic(auto, using(crate::proofs::Bytes::zeros, lines::proofs::Laws::has_none), unfolding(crate::specs::Bytes::flat))]
    pub fn empty() -> Self
        ensures { flat result.bytes ≡ 0 }
    {
        Bitmap {
            bytes: [0; 8],
            upper: 0,
        }
    }

    // The upper byte.
    pub fn upper(self) -> u8
        ensures { UpperOf (flat self.bytes) result }
    {
        self.upper
    }

    // The set of its lines.
    #[tactic(auto, using(crate::proofs::Bytes::flat_sum))]
    pub fn lines(self) -> LineSet
        ensures { result.bits ≡ flat self.bytes }
    {
        LineSet::new(u64::from_le_bytes(self.bytes))
    }

    // With byte i written.
    #[tactic(auto, using(crate::proofs::Bitmaps::writes))]
    fn written(self, i: u8, byte: u8) -> Self
        requires { i < 8 }
        ensures { result.bytes ≡ slice_set self.bytes i byte }
    {
        let mut bytes = self.bytes;
        bytes[i as usize] = byte;
        Bitmap {
            bytes,
            upper: upper_written(self.upper, i, byte),
        }
    }

    // With the line besides: for a number from 64 on, as it is.
    #[tactic(auto, using(crate::proofs::Bitmaps::bits))]
    pub fn with(self, line: u8) -> Self
        ensures { flat result.bytes ≡ with_line 64 (flat self.bytes) line }
    {
        if line < 64 {
            let i = line / 8;
            self.written(i, byte_with(self.bytes[i as usize], line % 8))
        } else {
            self
        }
    }

    // Without the line: for a number from 64 on, as it is.
    #[tactic(auto, using(crate::proofs::Bitmaps::bits))]
    pub fn without(self, line: u8) -> Self
        ensures { flat result.bytes ≡ minus (flat self.bytes) (only line) }
    {
        if line < 64 {
            let i = line / 8;
            self.written(i, byte_without(self.bytes[i as usize], line % 8))
        } else {
            self
        }
    }

    // The lines that are in byte i: from 8 on, none.
    #[tactic(auto, using(crate::proofs::Bitmaps::blocks))]
    fn block(self, i: u8) -> LineSet
        ensures { Block (flat self.bytes) i result.bits }
    {
        if i < 8 {
            LineSet::new(u64::from(self.bytes[i as usize]) << (8 * i))
        } else {
            LineSet::EMPTY
        }
    }

    // The lowest line that is not in the other set: the first byte that has one tells it.
    pub fn lowest_outside(self, other: LineSet) -> Option<u8>
        ensures { Finds (minus (flat self.bytes) other.bits) result }
    {
        LineSet::from(self.upper)
            .lines()
            .find_map(|i| self.block(i).minus(other).lowest())
    }
}
