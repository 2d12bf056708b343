// The lines of a trace: a text cut into lines, and what a line says.
#![tactic(auto)]

mod commands;
mod cut;
mod numerals;
mod read;
mod shown;
#[cfg(test)]
mod tests;

pub use commands::{Command, Setup, TextFault};
pub use cut::{next_line, next_whole_line};
pub use read::{read_command, read_setup};
pub use shown::{a_line_is_read_one_way, a_text_may_be_cut_anywhere};
