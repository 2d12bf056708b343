// A trace that comes in blocks.
ghost use Rattle.std.specs.Prelude.{◌≤◌, vec_len};

use crate::Playback;

// The machine, and the first bytes of a line that has begun: at most 81, so that its memory is bounded however long a line is.
#[derive(Drop)]
pub struct Stream {
    pub(crate) playback: Playback,
    pub(crate) begun: Vec<u8>,
    ghost short: { vec_len begun ≤ 81 },
}
