//! Tests of what no command of the tool shows: laws, each called once, and the lists of compiled images, read back.
#![tactic(auto)]

#[cfg(test)]
mod compiled;
#[cfg(test)]
mod laws;
#[cfg(test)]
mod unfailing;
