//! Runs a machine, with a change of one of its registers or of one of its jumps or without, and
//! shows what it put out and how it ended; or counts the words of a run. The lines of text of the tool are built here, without an allocation.
#![tactic(auto)]

mod count;
mod line;
mod showing;

pub use count::{Counted, count_outputs};
pub use line::{Line, end_line, put, put_address, put_number, word_line};
pub use showing::replay;
