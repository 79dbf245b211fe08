//! Laws of the definitions.

ghost use Rattle.compile_rules.specs.Compiled.{AcceptedOrRefused, NamesAgree, NeverBoth};

use c_grammar::tree_or_none;
use c_lexer::each_text_has_a_result;

/// The numbers that the meaning of C takes for the names `main`, `in_word` and `out_word` are those of the lexer. The call does nothing;
/// its contract is the law.
pub fn names_agree()
    ensures { NamesAgree }
{}

/// Each source, whatever its bytes, is accepted or refused. The call does nothing; its contract is the law.
pub fn accepted_or_refused()
    ensures { AcceptedOrRefused }
{
    each_text_has_a_result();
    tree_or_none();
}

/// No source is both accepted and refused. The call does nothing; its contract is the law.
pub fn never_both()
    ensures { NeverBoth }
{}
