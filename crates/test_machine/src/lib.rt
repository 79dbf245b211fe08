//! Tests of the machine's side: words, instructions, images, the machine, small texts, shelves and sinks. They hold what
//! no contract says: values from outside, that calls succeed with ample memory, and what readers and writers do in mid-stream.
#![tactic(auto)]

#[cfg(test)]
mod images;
#[cfg(test)]
mod instructions;
#[cfg(test)]
mod lines;
#[cfg(test)]
mod machine;
#[cfg(test)]
mod shelves;
#[cfg(test)]
mod words;
