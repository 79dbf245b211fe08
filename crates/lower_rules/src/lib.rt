//! What trees are lowered to: the lines of each expression, statement and function. Definitions alone.
#![tactic(auto)]
