//! The specifiers of a declaration, ISO/IEC 9899 clauses 6.7.1 to 6.7.3.

ghost use Rattle.std.specs.Prelude.{◌≡◌, if◌then◌else◌};
ghost use Rattle.c_grammar.specs.Specifiers.{no_words, is_value, is_local, is_function, type_of};
ghost use Rattle.c_grammar.specs.ReadStatements.{with_kind, specifiers};

use c_lexer::{Keyword, Token, TokenKind};
use c_syntax::Ty;

/// Which words stand among the specifiers.
#[derive(Clone, Copy)]
pub struct Specifiers {
    pub int: bool,
    pub signed: bool,
    pub unsigned: bool,
    pub void: bool,
    pub is_const: bool,
    pub is_static: bool,
}

fn once(was: bool, with: Specifiers) -> Option<Specifiers>
    ensures { result ≡ (if was then None else Some with) }
{
    if was { None } else { Some(with) }
}

/// One more word, or `None` where it is no specifier or stood there already.
fn add_word(kind: TokenKind, seen: Specifiers) -> Option<Specifiers>
    ensures { result ≡ with_kind kind seen }
{
    let TokenKind::Word(word) = kind else {
        return None;
    };
    let mut with = seen;
    match word {
        Keyword::Int => {
            with.int = true;
            once(seen.int, with)
        }
        Keyword::Signed => {
            with.signed = true;
            once(seen.signed, with)
        }
        Keyword::Unsigned => {
            with.unsigned = true;
            once(seen.unsigned, with)
        }
        Keyword::Void => {
            with.void = true;
            once(seen.void, with)
        }
        Keyword::Const => {
            with.is_const = true;
            once(seen.is_const, with)
        }
        Keyword::Static => {
            with.is_static = true;
            once(seen.is_static, with)
        }
        _ => None,
    }
}

fn none_seen() -> Specifiers
    ensures { result ≡ no_words }
{
    Specifiers {
        int: false,
        signed: false,
        unsigned: false,
        void: false,
        is_const: false,
        is_static: false,
    }
}

/// The words at the front, as long as they are distinct, and the tokens behind them.
pub fn read_specifiers<'a>(tokens: &'a [Token]) -> (Specifiers, &'a [Token])
    ensures { (result.0, result.1.now) ≡ specifiers no_words tokens.now }
{
    let mut seen = none_seen();
    let mut rest = tokens;
    loop {
        let Some((t, behind)) = rest.split_first() else {
            return (seen, rest);
        };
        let Some(more) = add_word(t.kind, seen) else {
            return (seen, rest);
        };
        seen = more;
        rest = behind;
    }
}

/// Whether further words can make of them what a declaration may have, in a block or a list of parameters if `inside`.
fn may_go_on(s: Specifiers, inside: bool) -> bool {
    let both = s.signed && s.unsigned;
    let mixed = s.void && (s.int || s.signed || s.unsigned);
    let outside = s.void || s.is_static;
    !(both || mixed || (inside && outside))
}

/// How many tokens there are from the first on with which no specifiers of a declaration go on, or from the first
/// behind them. It is called where there is no such declaration, and only says where that shows.
pub fn left_at_misfit(tokens: &[Token], inside: bool) -> usize {
    let mut seen = none_seen();
    let mut rest = tokens;
    loop {
        let Some((t, behind)) = rest.split_first() else {
            return 0;
        };
        let Some(more) = add_word(t.kind, seen) else {
            return rest.len();
        };
        if !may_go_on(more, inside) {
            return rest.len();
        }
        seen = more;
        rest = behind;
    }
}

/// Whether they name a type of values.
pub fn names_value(s: Specifiers) -> bool
    ensures { result ≡ is_value s }
{
    (s.int || s.signed || s.unsigned) && !(s.signed && s.unsigned) && !s.void
}

/// Whether a local variable or a parameter may have them.
pub fn fit_local(s: Specifiers) -> bool
    ensures { result ≡ is_local s }
{
    names_value(s) && !s.is_static
}

/// Whether a function may have them.
pub fn fit_function(s: Specifiers) -> bool
    ensures { result ≡ is_function s }
{
    names_value(s) || (s.void && !(s.int || s.signed || s.unsigned))
}

/// The type that they name.
pub fn named_type(s: Specifiers) -> Ty
    ensures { result ≡ type_of s }
{
    if s.void {
        Ty::Void
    } else if s.unsigned {
        Ty::Unsigned
    } else {
        Ty::Int
    }
}
