//! The parts of a run of a C program: what begins, what waits for what it gives, and what comes next.
#![tactic(auto)]

mod begins;
mod code;
mod laws;
mod part;

pub use begins::{
    body, clauses, expression, in_for, is_label, labels, locals, place, search, statement,
    statements, tested, turns,
};
pub use code::Code;
pub use laws::{ends_so, output_stays};
pub use part::{
    Frame, Given, Layer, Loop, Next, Now, OnFlow, OnPlace, OnValue, flow_of, goes, place_of,
    value_of,
};
