//! What a text that the lint accepts promises of its runs under one fault and under one diverted branch. Each call does nothing; its
//! contract is the law.
#![tactic(auto)]

mod harden_divert;

pub use harden_divert::{
    catches, catches_behind, catches_within, enters_at_start, heads_apart, keeps_numbers, one_head,
    spans_apart, starts_inside,
};
