//! The commands of the tool, each over its files.
#![tactic(auto)]

mod audit_file;
mod campaign_file;
mod compile_source;
mod eval_file;
mod list_file;
mod make_file;
mod run_file;

pub use audit_file::audit_image;
pub use campaign_file::{count_flips, write_outcome};
pub use compile_source::compile_file;
pub use eval_file::eval_source;
pub use list_file::list_pairs;
pub use make_file::make_program;
pub use run_file::{run_changed, run_image};
