//! The compiler: from the bytes of a C text to a hardened image.
#![tactic(auto)]

mod compile_law;
mod compiler;
mod laws;
mod lowered_image;
mod split;

pub use compile_law::{can_be_hardened, compiled_is_hardened};
pub use compile_rules::Refusal;
pub use compiler::{LONGEST_SOURCE, checked_source, compile};
pub use laws::{accepted_or_refused, names_agree, never_both};
pub use lowered_image::{lowered_is_hardened, lowered_is_small, lowered_runs};
pub use split::compile_split;
