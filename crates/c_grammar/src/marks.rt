//! Single tokens that have to stand somewhere.

ghost use Rattle.std.specs.Prelude.{◌≡◌};
ghost use Rattle.c_grammar.specs.Gives.{Gives};
ghost use Rattle.c_grammar.specs.Marks.{is_mark};
ghost use Rattle.c_grammar.specs.ReadExpressions.{after, is_close_paren, is_comma_sign};
ghost use Rattle.c_grammar.specs.ReadStatements.{is_open_paren, is_close_brace, is_label, ends_statements, is_specifier, starts};

use crate::fault::Fault;
use crate::operators::prefix_sign;
use c_lexer::{Keyword, Punct, Token, TokenKind};

/// Whether it is `,`.
pub fn is_comma(kind: TokenKind) -> bool
    ensures { result ≡ is_comma_sign kind }
{
    matches!(kind, TokenKind::Sign(Punct::Comma))
}

/// Whether it is `(`.
pub fn is_opening(kind: TokenKind) -> bool
    ensures { result ≡ is_open_paren kind }
{
    matches!(kind, TokenKind::Sign(Punct::OpenParen))
}

/// Whether it is `)`.
pub fn is_closing(kind: TokenKind) -> bool
    ensures { result ≡ is_close_paren kind }
{
    matches!(kind, TokenKind::Sign(Punct::CloseParen))
}

/// Whether it is `}`.
pub fn is_closing_brace(kind: TokenKind) -> bool
    ensures { result ≡ is_close_brace kind }
{
    matches!(kind, TokenKind::Sign(Punct::CloseBrace))
}

/// Whether a label of a `switch` begins with it.
pub fn is_label_word(kind: TokenKind) -> bool
    ensures { result ≡ is_label kind }
{
    matches!(kind, TokenKind::Word(Keyword::Case | Keyword::Default))
}

/// Whether the statements behind a label end with it.
pub fn is_end_of_statements(kind: TokenKind) -> bool
    ensures { result ≡ ends_statements kind }
{
    is_closing_brace(kind) || is_label_word(kind)
}

/// Whether it is a word of a declaration's specifiers.
pub fn is_specifier_word(kind: TokenKind) -> bool
    ensures { result ≡ is_specifier kind }
{
    match kind {
        TokenKind::Word(word) => matches!(
            word,
            Keyword::Int
                | Keyword::Signed
                | Keyword::Unsigned
                | Keyword::Void
                | Keyword::Const
                | Keyword::Static
        ),
        _ => false,
    }
}

/// Whether an expression can begin with it.
pub fn starts_expression(kind: TokenKind) -> bool
    ensures { result ≡ starts kind }
{
    match prefix_sign(kind) {
        Some(_) => true,
        None => matches!(
            kind,
            TokenKind::Number { .. } | TokenKind::Name(_) | TokenKind::Sign(Punct::OpenParen)
        ),
    }
}

/// A sign or a word that has to stand somewhere.
#[derive(Clone, Copy)]
pub enum Mark {
    CloseParen,
    CloseBracket,
    Colon,
    OpenParen,
    Semicolon,
    OpenBrace,
    CloseBrace,
    While,
}

/// Whether it is this sign or word.
fn is_this(mark: Mark, kind: TokenKind) -> bool
    ensures { result ≡ is_mark mark kind }
{
    match mark {
        Mark::CloseParen => matches!(kind, TokenKind::Sign(Punct::CloseParen)),
        Mark::CloseBracket => matches!(kind, TokenKind::Sign(Punct::CloseBracket)),
        Mark::Colon => matches!(kind, TokenKind::Sign(Punct::Colon)),
        Mark::OpenParen => matches!(kind, TokenKind::Sign(Punct::OpenParen)),
        Mark::Semicolon => matches!(kind, TokenKind::Sign(Punct::Semicolon)),
        Mark::OpenBrace => matches!(kind, TokenKind::Sign(Punct::OpenBrace)),
        Mark::CloseBrace => matches!(kind, TokenKind::Sign(Punct::CloseBrace)),
        Mark::While => matches!(kind, TokenKind::Word(Keyword::While)),
    }
}

/// What stands behind the mark.
pub fn after<'a>(tokens: &'a [Token], mark: Mark) -> Result<&'a [Token], Fault>
    ensures { Gives (λ x. x.now) result (after (is_mark mark) tokens.now) }
{
    let Some((token, rest)) = tokens.split_first() else {
        return Err(Fault::NoProgram { left: 0 });
    };
    if is_this(mark, token.kind) {
        Ok(rest)
    } else {
        Err(Fault::NoProgram { left: tokens.len() })
    }
}
