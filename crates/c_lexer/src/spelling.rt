//! How each reserved word and each punctuator is spelled, and which one a spelling is.

ghost use Rattle.std.specs.Prelude.{◌≡◌, ◌≢◌, ◌↔◌, All, IsTrue, MatchOption};
ghost use Rattle.c_lexer.specs.Spelling.{sign_spelling, word_spelling};
ghost use Rattle.c_lexer.specs.declared.token.Keyword.{Keyword};
ghost use Rattle.c_lexer.specs.declared.token.Punct.{Punct};

use crate::token::{Keyword, Punct};

/// Each reserved word.
const KEYWORDS: [Keyword; 34] = [
    Keyword::Int,
    Keyword::Unsigned,
    Keyword::Signed,
    Keyword::Void,
    Keyword::Const,
    Keyword::Static,
    Keyword::If,
    Keyword::Else,
    Keyword::While,
    Keyword::Do,
    Keyword::For,
    Keyword::Break,
    Keyword::Continue,
    Keyword::Return,
    Keyword::Auto,
    Keyword::Case,
    Keyword::Char,
    Keyword::Default,
    Keyword::Double,
    Keyword::Enum,
    Keyword::Extern,
    Keyword::Float,
    Keyword::Goto,
    Keyword::Inline,
    Keyword::Long,
    Keyword::Register,
    Keyword::Restrict,
    Keyword::Short,
    Keyword::Sizeof,
    Keyword::Struct,
    Keyword::Switch,
    Keyword::Typedef,
    Keyword::Union,
    Keyword::Volatile,
];

/// Each punctuator.
const PUNCTS: [Punct; 43] = [
    Punct::Plus,
    Punct::Minus,
    Punct::Star,
    Punct::Slash,
    Punct::Percent,
    Punct::ShiftLeft,
    Punct::ShiftRight,
    Punct::Less,
    Punct::Greater,
    Punct::LessEqual,
    Punct::GreaterEqual,
    Punct::EqualEqual,
    Punct::NotEqual,
    Punct::And,
    Punct::Or,
    Punct::Caret,
    Punct::Tilde,
    Punct::Bang,
    Punct::AndAnd,
    Punct::OrOr,
    Punct::Equal,
    Punct::PlusEqual,
    Punct::MinusEqual,
    Punct::StarEqual,
    Punct::SlashEqual,
    Punct::PercentEqual,
    Punct::ShiftLeftEqual,
    Punct::ShiftRightEqual,
    Punct::AndEqual,
    Punct::OrEqual,
    Punct::CaretEqual,
    Punct::PlusPlus,
    Punct::MinusMinus,
    Punct::Question,
    Punct::Colon,
    Punct::Comma,
    Punct::Semicolon,
    Punct::OpenParen,
    Punct::CloseParen,
    Punct::OpenBrace,
    Punct::CloseBrace,
    Punct::OpenBracket,
    Punct::CloseBracket,
];

impl Keyword {
    /// Its bytes in a text.
    fn spelling(self) -> &'static [u8]
        ensures { result.now ≡ word_spelling self }
    {
        match self {
            Keyword::Int => b"int",
            Keyword::Unsigned => b"unsigned",
            Keyword::Signed => b"signed",
            Keyword::Void => b"void",
            Keyword::Const => b"const",
            Keyword::Static => b"static",
            Keyword::If => b"if",
            Keyword::Else => b"else",
            Keyword::While => b"while",
            Keyword::Do => b"do",
            Keyword::For => b"for",
            Keyword::Break => b"break",
            Keyword::Continue => b"continue",
            Keyword::Return => b"return",
            Keyword::Auto => b"auto",
            Keyword::Case => b"case",
            Keyword::Char => b"char",
            Keyword::Default => b"default",
            Keyword::Double => b"double",
            Keyword::Enum => b"enum",
            Keyword::Extern => b"extern",
            Keyword::Float => b"float",
            Keyword::Goto => b"goto",
            Keyword::Inline => b"inline",
            Keyword::Long => b"long",
            Keyword::Register => b"register",
            Keyword::Restrict => b"restrict",
            Keyword::Short => b"short",
            Keyword::Sizeof => b"sizeof",
            Keyword::Struct => b"struct",
            Keyword::Switch => b"switch",
            Keyword::Typedef => b"typedef",
            Keyword::Union => b"union",
            Keyword::Volatile => b"volatile",
        }
    }
}

impl Punct {
    /// Its bytes in a text.
    fn spelling(self) -> &'static [u8]
        ensures { result.now ≡ sign_spelling self }
    {
        match self {
            Punct::Plus => b"+",
            Punct::Minus => b"-",
            Punct::Star => b"*",
            Punct::Slash => b"/",
            Punct::Percent => b"%",
            Punct::ShiftLeft => b"<<",
            Punct::ShiftRight => b">>",
            Punct::Less => b"<",
            Punct::Greater => b">",
            Punct::LessEqual => b"<=",
            Punct::GreaterEqual => b">=",
            Punct::EqualEqual => b"==",
            Punct::NotEqual => b"!=",
            Punct::And => b"&",
            Punct::Or => b"|",
            Punct::Caret => b"^",
            Punct::Tilde => b"~",
            Punct::Bang => b"!",
            Punct::AndAnd => b"&&",
            Punct::OrOr => b"||",
            Punct::Equal => b"=",
            Punct::PlusEqual => b"+=",
            Punct::MinusEqual => b"-=",
            Punct::StarEqual => b"*=",
            Punct::SlashEqual => b"/=",
            Punct::PercentEqual => b"%=",
            Punct::ShiftLeftEqual => b"<<=",
            Punct::ShiftRightEqual => b">>=",
            Punct::AndEqual => b"&=",
            Punct::OrEqual => b"|=",
            Punct::CaretEqual => b"^=",
            Punct::PlusPlus => b"++",
            Punct::MinusMinus => b"--",
            Punct::Question => b"?",
            Punct::Colon => b":",
            Punct::Comma => b",",
            Punct::Semicolon => b";",
            Punct::OpenParen => b"(",
            Punct::CloseParen => b")",
            Punct::OpenBrace => b"{",
            Punct::CloseBrace => b"}",
            Punct::OpenBracket => b"[",
            Punct::CloseBracket => b"]",
        }
    }
}

/// Whether a text spells a reserved word.
fn spells_keyword(text: &[u8], word: Keyword) -> bool
    ensures { IsTrue result ↔ (text.now ≡ word_spelling word) }
{
    text == word.spelling()
}

/// Whether a text spells a punctuator.
fn spells_punct(text: &[u8], sign: Punct) -> bool
    ensures { IsTrue result ↔ (text.now ≡ sign_spelling sign) }
{
    text == sign.spelling()
}

/// The first of some reserved words with this spelling.
fn keyword_among(words: &[Keyword], text: &[u8]) -> Option<Keyword>
    ensures { MatchOption result (All (λ k. text.now ≢ word_spelling k) words.now) (λ k. text.now ≡ word_spelling k) }
{
    for word in words {
        if spells_keyword(text, *word) {
            return Some(*word);
        }
    }
    None
}

/// The first of some punctuators with this spelling.
fn punct_among(signs: &[Punct], text: &[u8]) -> Option<Punct>
    ensures { MatchOption result (All (λ p. text.now ≢ sign_spelling p) signs.now) (λ p. text.now ≡ sign_spelling p) }
{
    for sign in signs {
        if spells_punct(text, *sign) {
            return Some(*sign);
        }
    }
    None
}

/// The reserved word with this spelling.
pub(crate) fn keyword_of(text: &[u8]) -> Option<Keyword>
    ensures { MatchOption result ((k : Keyword) → text.now ≢ word_spelling k) (λ k. text.now ≡ word_spelling k) }
{
    keyword_among(&KEYWORDS, text)
}

/// The punctuator with this spelling.
pub(crate) fn punct_of(text: &[u8]) -> Option<Punct>
    ensures { MatchOption result ((p : Punct) → text.now ≢ sign_spelling p) (λ p. text.now ≡ sign_spelling p) }
{
    punct_among(&PUNCTS, text)
}
