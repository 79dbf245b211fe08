//! What is said of a text of words: where its instructions stand, its blocks and starts, its typing by streams, the forms that
//! call a service, and streams that take turns. Definitions alone.
#![tactic(auto)]
