//! Examples of the meaning of C programs.

ghost use Rattle.c_tree.specs.Examples.{Examples};

/// Each of the examples runs as it says: a few programs for every rule of the language.
pub fn examples_hold()
    ensures { Examples }
{}
