//! Faults of a run: what it means that a change is unseen, told or caught, and what stands beside it. Definitions alone.
#![tactic(auto)]
