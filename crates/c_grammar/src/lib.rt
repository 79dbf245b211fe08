//! The grammar of the C subset (ISO/IEC 9899:1999, annex A.2) as a relation between tokens and trees, the laws that it is sound and
//! complete for the reading of tokens, and what reads single tokens of it.
#![tactic(auto)]

mod fault;
mod laws;
mod marks;
mod operators;
mod reading;
mod specifiers;

pub use fault::Fault;
pub use laws::{one_tree, tree_or_none};
pub use marks::{
    Mark, after, is_closing, is_closing_brace, is_comma, is_end_of_statements, is_label_word,
    is_opening, is_specifier_word, starts_expression,
};
pub use operators::{
    Infix, assignment_sign, infix_sign, join, postfix_sign, prefix_sign, put_before,
};
pub use reading::{Measured, Reading, close};
pub use specifiers::{
    Specifiers, fit_function, fit_local, left_at_misfit, named_type, names_value, read_specifiers,
};
