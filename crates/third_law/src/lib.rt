//! What a program in three-address code becomes when each of its steps is done in three streams of instructions that vote before
//! each use, and the law that its words do the same.
//!
//! Three streams with votes are triple modular redundancy, in the project's own form.
#![tactic(auto)]

ghost use Rattle.third_law.specs.Law.{FewInThree, InRangeInThree, RunInThree};

mod roles;

use mips_isa::decodes_encoded;
pub use roles::{Role, Stream, register};

/// The words are at most four times as many as the blocks were counted for. The call does nothing; its contract is the law.
pub fn few_in_three()
    ensures { FewInThree }
{}

/// Each instruction has a word. The call does nothing; its contract is the law.
pub fn in_range_in_three()
    ensures { InRangeInThree }
{}

/// The text does what the program in blocks does, seen from outside, on each input of words; in each state on the way loads and
/// stores are of their streams' words, returns go behind calls, nothing is an exception, and the streams agree at each vote. The
/// call does nothing but call a law that it rests on; its contract is the law.
pub fn run_in_three()
    ensures { RunInThree }
{
    decodes_encoded();
}
