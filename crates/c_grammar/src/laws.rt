//! Laws of the grammar.

ghost use Rattle.std.specs.Prelude.{◌≡◌, List};
ghost use Rattle.c_lexer.specs.declared.token.Token.{Token};
ghost use Rattle.c_syntax.specs.declared.tree.Program.{Program};
ghost use Rattle.c_grammar.specs.Decided.{TreeOrNone};
ghost use Rattle.c_grammar.specs.Items.{Tree};

/// No list of tokens has two trees.
pub fn one_tree()
    ensures { (ts : List Token) (t u : Program) → Tree ts t → Tree ts u → t ≡ u }
{}

/// Each list of tokens spells a program of depth at most 256, or none.
pub fn tree_or_none()
    ensures { TreeOrNone }
{}
