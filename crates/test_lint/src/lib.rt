//! Tests of the lint and of the list of windows: texts laid by hand that keep the rules or break one, and the windows of some
//! of them. They hold what no contract says: which words are which text, and that calls succeed with ample memory.
#![tactic(auto)]

#[cfg(test)]
mod refusals;
#[cfg(test)]
mod texts;
#[cfg(test)]
mod third_texts;
#[cfg(test)]
mod windows;
