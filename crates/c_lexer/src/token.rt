//! Tokens, as ISO/IEC 9899 clause 6.4 has them, cut down to the subset.

/// One token of a text.
#[derive(Clone, Copy, Debug, PartialEq, Eq)]
pub struct Token {
    /// What it is.
    pub kind: TokenKind,
    /// The byte at which it begins, counted from 0.
    pub at: u32,
    /// How many bytes it has, at least 1.
    pub length: u32,
}

/// What a token is.
#[derive(Clone, Copy, Debug, PartialEq, Eq)]
pub enum TokenKind {
    /// An identifier, by its number: 0 is `main`, 1 `in_word`, 2 `out_word`, others count from 3
    /// by their first occurrence.
    Name(u32),
    /// A constant, with its value and whether its type is unsigned.
    Number { value: u32, is_unsigned: bool },
    /// A reserved word.
    Word(Keyword),
    /// A punctuator.
    Sign(Punct),
}

/// The reserved words: first those of the grammar, then those that no rule uses.
#[derive(Clone, Copy, Debug, PartialEq, Eq)]
pub enum Keyword {
    Int,
    Unsigned,
    Signed,
    Void,
    Const,
    Static,
    If,
    Else,
    While,
    Do,
    For,
    Break,
    Continue,
    Return,
    Auto,
    Case,
    Char,
    Default,
    Double,
    Enum,
    Extern,
    Float,
    Goto,
    Inline,
    Long,
    Register,
    Restrict,
    Short,
    Sizeof,
    Struct,
    Switch,
    Typedef,
    Union,
    Volatile,
}

/// The punctuators.
#[derive(Clone, Copy, Debug, PartialEq, Eq)]
pub enum Punct {
    /// `+`
    Plus,
    /// `-`
    Minus,
    /// `*`
    Star,
    /// `/`
    Slash,
    /// `%`
    Percent,
    /// `<<`
    ShiftLeft,
    /// `>>`
    ShiftRight,
    /// `<`
    Less,
    /// `>`
    Greater,
    /// `<=`
    LessEqual,
    /// `>=`
    GreaterEqual,
    /// `==`
    EqualEqual,
    /// `!=`
    NotEqual,
    /// `&`
    And,
    /// `|`
    Or,
    /// `^`
    Caret,
    /// `~`
    Tilde,
    /// `!`
    Bang,
    /// `&&`
    AndAnd,
    /// `||`
    OrOr,
    /// `=`
    Equal,
    /// `+=`
    PlusEqual,
    /// `-=`
    MinusEqual,
    /// `*=`
    StarEqual,
    /// `/=`
    SlashEqual,
    /// `%=`
    PercentEqual,
    /// `<<=`
    ShiftLeftEqual,
    /// `>>=`
    ShiftRightEqual,
    /// `&=`
    AndEqual,
    /// `|=`
    OrEqual,
    /// `^=`
    CaretEqual,
    /// `++`
    PlusPlus,
    /// `--`
    MinusMinus,
    /// `?`
    Question,
    /// `:`
    Colon,
    /// `,`
    Comma,
    /// `;`
    Semicolon,
    /// `(`
    OpenParen,
    /// `)`
    CloseParen,
    /// `{`
    OpenBrace,
    /// `}`
    CloseBrace,
    /// `[`
    OpenBracket,
    /// `]`
    CloseBracket,
}
