// Sets of at most eight lines in a byte, as a chip's register has them: a byte and no LineSet, since a register's memory is fixed.
ghost use Rattle.std.specs.Prelude.{◌≡◌, ℕ, ◌<◌, Bool, true, false};
ghost use Rattle.lines.specs.Sets.{has, minus, only, with_line};

use crate::LineSet;

// Whether the bit is set; a byte has none from 8 on.
pub fn byte_contains(byte: u8, bit: u8) -> bool
    ensures { result ≡ has byte bit }
{
    LineSet::from(byte).contains(bit)
}

// The byte with the bit set; from 8 on the byte as it is.
#[tactic(auto, using(crate::proofs::Words::byte))]
pub fn byte_with(byte: u8, bit: u8) -> u8
    ensures { result ≡ with_line 8 byte bit }
{
    if bit < 8 {
        LineSet::from(byte).with(bit).bits as u8
    } else {
        byte
    }
}

// The byte with the bit clear.
#[tactic(auto, using(crate::proofs::Words::byte))]
pub fn byte_without(byte: u8, bit: u8) -> u8
    ensures { result ≡ minus byte (only bit) }
{
    LineSet::from(byte).without(bit).bits as u8
}
