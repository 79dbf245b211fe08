//! What the compiler promises of an image, and which source it refuses. Definitions, with the type of a refusal.
#![tactic(auto)]

mod refusal;

pub use refusal::Refusal;
