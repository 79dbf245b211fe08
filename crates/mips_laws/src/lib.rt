//! Laws over the table of instructions, one step and runs with a change. Each call does nothing; its contract is the law.
#![tactic(auto)]

mod laws;

pub use laws::{
    act_asks, act_beside, act_puts, act_reaches, act_twins, act_ways, clean_behind, divert_splits,
    end_stays, flip_is_set, going_jumps, output_grows, replace_splits, run_begins, run_joins,
    same_act, same_before,
};
