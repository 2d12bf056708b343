// Why a level is refused.

// A refused call changes nothing.
#[derive(Clone, Copy, Debug, PartialEq, Eq)]
pub enum LevelFault {
    // a level, or a code, that the policy does not name
    NoSuchLevel = 4,
}
