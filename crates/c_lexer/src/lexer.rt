//! From a text to its tokens.

ghost use Rattle.std.specs.Prelude.{◌≡◌, ◌≢◌, ◌<◌, ◌≤◌, ◌^◌, Err, IfOk, IsErrOf, Ok, length};
ghost use Rattle.c_lexer.specs.declared.error.LexError.{LexError};
ghost use Rattle.c_lexer.specs.Names.{Adds};
ghost use Rattle.c_lexer.specs.Tokens.{ArePlaced, HasOneResult, HasSomeResult, Tokens};

use crate::byte::{front_of, rest_of};
use crate::error::LexError;
use crate::meaning::{Meaning, meaning_of};
use crate::names::first_names;
use crate::piece::piece_at;
use crate::token::Token;
use std::alloc::Global;

/// The tokens of a text (ISO/IEC 9899 clause 6.4, cut down to the subset), or its first fault.
pub fn tokens(alloc: Global, bytes: &[u8]) -> Result<Vec<Token>, LexError>
    requires { length bytes.now ≤ 1048576 }
    ensures ok { IfOk result (λ ts. Tokens bytes.now (Ok ts.items)) }
    ensures placed { IfOk result (λ ts. ArePlaced 0 ts.items (length bytes.now)) }
    ensures fault { (e : LexError) → IsErrOf result e → e ≢ LexError.OutOfMemory → Tokens bytes.now (Err e) }
{
    let mut names = first_names(alloc)?;
    let mut tokens = Vec::new(alloc);
    let mut at = 0;
    let mut starts_line = true;
    while at < bytes.len() {
        let rest = rest_of(bytes, at);
        let Some(piece) = piece_at(rest, starts_line) else {
            return Err(LexError::BadToken { at: at as u32 });
        };
        let spelling = front_of(rest, piece.size);
        let meaning = meaning_of(&mut names, piece.kind, spelling, starts_line, at as u32)?;
        match add_piece(&mut tokens, meaning, at as u32, piece.size as u32) {
            Ok(then) => starts_line = then,
            Err(error) => return Err(error),
        }
        at += piece.size;
    }
    Ok(tokens)
}

/// Adds what a piece means to the tokens, and says whether only spaces and tabs stand on the line
/// behind it. An `Err` is its fault, or no memory.
fn add_piece(
    tokens: &mut Vec<Token>,
    meaning: Meaning,
    at: u32,
    length: u32,
) -> Result<bool, LexError>
    ensures ok { IfOk result (λ s. Adds meaning at length s tokens.old.items tokens.new.items) }
    ensures fault { (e : LexError) → IsErrOf result e → e ≢ LexError.OutOfMemory → meaning ≡ Meaning.Wrong e }
{
    match meaning {
        Meaning::Skipped(starts_line) => Ok(starts_line),
        Meaning::Is(kind) => {
            tokens.push(Token { kind, at, length })?;
            Ok(false)
        }
        Meaning::Wrong(error) => Err(error),
    }
}

/// A text has one result, so what `tokens` gives is the only one: a law without a body.
pub fn one_result()
    ensures { HasOneResult }
{}

/// Each text, whatever its bytes, gives tokens or a fault: a law without a body.
pub fn each_text_has_a_result()
    ensures { HasSomeResult }
{}
