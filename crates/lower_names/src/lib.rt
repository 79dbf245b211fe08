//! What a function of the C subset is lowered with: its variables, the variables at file scope, the numbers of the
//! functions, and what each name stands for, by tables that are kept from one function to the next.
#![tactic(auto)]

mod calls;
mod declared;
mod files;
mod returns;
mod room;
mod stands;

pub use calls::{Names, callees, chosen};
pub use declared::variables;
pub use files::{global_words, shapes};
pub use returns::returns_value;
pub use room::behind_temporaries;
pub use stands::{enter, leave, outside};
