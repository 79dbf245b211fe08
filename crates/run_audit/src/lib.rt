//! The audit of an image: one clean run in place of all replays of it with a fault.
//!
//! Any image will do, whoever made it. [`audit`] asks the lint of the image's text, and then makes the run of the image on some
//! input without a change, looking at each state. Where it passes, every word that a fault puts anywhere but in a window is
//! unseen or told, though no fault was replayed. [`window_count`] counts the windows of a text.
#![tactic(auto)]

mod auditing;
mod count;
mod error;
mod laws;
mod lines;
mod starts;
mod turns;

pub use auditing::audit;
pub use count::window_count;
pub use error::AuditError;
pub use laws::{never_both, passes_or_refused};
pub use lines::{no_line, steps_line, windows_line, yes_line};
