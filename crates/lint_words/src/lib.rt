//! The words around one word of a text, as the lint reads them: a table of their instructions, what stands before a word and behind
//! it, which registers await a critical use, and which words are of a head or of a form that calls a service.
//!
//! Each test looks at the words within 28 bytes of an address; that they decide the relations of the text is proved above. An
//! address may be any but the lowest and the highest few, in the text or not. Only [`WordTable::new`] takes memory.
#![tactic(auto)]

mod around;
mod forms;
pub mod table;
mod windows;
mod words;

pub use around::{
    far_before, in_slot, is_some, jumps_by, leads, near_before, reads_by, reporting, starts_at,
    uses_by, writes_by,
};
pub use forms::{exit_at, form_behind, head_at, in_form, in_head, input_at, is_nop, output_at};
pub use table::WordTable;
pub use windows::{check_at, critical, service_near, serving, window};
pub use words::{TEXT_START, branch_goal, code_of, in_words, instr_at, jump_goal, made, skipped};
