//! The laws of doubled programs: the same run, streams that are twins, few words, few loads through the stack pointers. Each call
//! does nothing; its contract is the law.
#![tactic(auto)]

ghost use Rattle.double_law.specs.Law.{DoubledRuns};

mod double_forms;
mod double_reloads;
mod roles;

pub use double_forms::{doubled_counts, doubled_twin};
pub use double_reloads::doubled_reloads;
pub use roles::{Role, Stream, register};
/// The doubled program does what the program in blocks does, both streams hold the same wherever a check could stand, and it
/// never reports. The call does nothing; its contract is the law.
pub fn doubled_runs()
    ensures { DoubledRuns }
{}
