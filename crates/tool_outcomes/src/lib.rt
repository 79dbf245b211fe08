//! What a call of the tool may leave and say: the files that it takes and puts, its failures with their statuses, the lines of
//! refusals.
#![tactic(auto)]

mod failure;
mod put_file;
mod refusal_lines;
mod take;

pub use failure::{
    DONE, Failure, NO_MEMORY, NOT_PASSED, SINK_FAULT, USAGE, report, say, status_of_text,
};
pub use put_file::put_and_say;
pub use take::{take_fault, take_file, take_image, take_input};
