// A trace played on the machine of the cabinet: a line at a time, in blocks of any size, or whole.
#![tactic(auto)]

mod feed;
mod play;
mod playback;
mod step;
mod stream;
mod whole;

pub use feed::a_trace_may_come_in_blocks;
pub use playback::{Hardware, HeadStage, Playback, RootStage};
pub use step::PlaybackStepped;
pub use stream::Stream;
pub use whole::replay;
