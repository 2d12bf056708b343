// The phases of a machine. Each is a type, and a machine moves from one to the next.

// Routes can be set.
#[derive(Clone, Copy, Debug, PartialEq, Eq)]
pub struct LaidOut;

// The calls run.
#[derive(Clone, Copy, Debug, PartialEq, Eq)]
pub struct Running;

// Questions alone are answered.
#[derive(Clone, Copy, Debug, PartialEq, Eq)]
pub struct Closed;

// The phases in which calls run.
pub trait Live {}

impl Live for Running {}

// The phases in which questions are answered.
pub trait Asked {}

impl Asked for Running {}

impl Asked for Closed {}
