//! Tests of the C side: lexemes, programs of the grammar, the sizes of trees. They hold what no contract says: values counted by
//! hand, which place is named where a text is no program, and that calls succeed with ample memory.
#![tactic(auto)]

#[cfg(test)]
mod lexemes;
#[cfg(test)]
mod programs;
#[cfg(test)]
mod sizes;
