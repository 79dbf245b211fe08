//! The lines that say why an image, a text of numbers, a file of a fault or a source is refused, made without an allocation.

ghost use Rattle.std.specs.Prelude.{◌≡◌, ◌+◌, ◌≤◌, ◌++◌, length, decimal};
ghost use Rattle.fault_replay.specs.Show.{line};
ghost use Rattle.tool_outcomes.specs.RefusalLines.{source_line, need_and_have, image_line, image_too_large, fault_line, fault_too_large, input_line, input_too_large, source_line_at, kind_name};

use arrayvec::ArrayVec;
use c_lexer::LexError;
use c_parser::ParseError;
use check_rules::{CheckError, CheckKind};
use compile_rules::Refusal;
use elf_image::ImageError;
use fault_replay::{Line, put, put_number};
use hard_lines::{FaultError, LinesError};

/// The line of why bytes hold no image; empty for want of memory.
#[tactic(auto, unfolding(crate::specs::RefusalLines::image_line))]
pub(crate) fn image_line(error: ImageError) -> Line
    ensures { result.items ≡ image_line error }
{
    match error {
        ImageError::Truncated { need, have } => counts_line(
            b"image refused: truncated",
            need,
            have,
        ),
        ImageError::NotElf => plain_line(b"image refused: not ELF"),
        ImageError::NotMips => plain_line(b"image refused: not MIPS"),
        ImageError::BadHeader { field } => number_line(
            b"image refused: header field at ",
            field as u64,
        ),
        ImageError::BadSegment { index } => number_line(b"image refused: segment ", index as u64),
        ImageError::BadSection { index } => number_line(b"image refused: section ", index as u64),
        ImageError::TrailingBytes { need, have } => counts_line(
            b"image refused: trailing bytes",
            need,
            have,
        ),
        ImageError::OutOfMemory => ArrayVec::new(),
    }
}

/// The line of an image file that is larger than any that is read.
#[tactic(auto, unfolding(crate::specs::RefusalLines::image_too_large))]
pub(crate) fn image_too_large() -> &'static [u8]
    ensures { result.now ≡ image_too_large }
{
    b"image refused: too large\n"
}

/// The line of why a text of numbers is refused; empty for want of memory.
#[tactic(auto, unfolding(crate::specs::RefusalLines::input_line))]
pub(crate) fn input_line(error: LinesError) -> Line
    ensures { result.items ≡ input_line error }
{
    match error {
        LinesError::BadNumber { line: place } => number_line(
            b"input refused: number on line ",
            place as u64,
        ),
        LinesError::TooMany => plain_line(b"input refused: too many numbers"),
        LinesError::OutOfMemory => ArrayVec::new(),
    }
}

/// The line of an input file that is larger than any that is read.
#[tactic(auto, unfolding(crate::specs::RefusalLines::input_too_large))]
pub(crate) fn input_too_large() -> &'static [u8]
    ensures { result.now ≡ input_too_large }
{
    b"input refused: too large\n"
}

/// The line of why a file of one fault is refused.
#[tactic(auto, unfolding(crate::specs::RefusalLines::fault_line))]
pub(crate) fn fault_line(error: FaultError) -> Line
    ensures { result.items ≡ fault_line error }
{
    match error {
        FaultError::NotOneLine => plain_line(b"fault refused: not one line"),
        FaultError::BadWord { word } => number_line(b"fault refused: word ", word as u64),
        FaultError::OutOfRange { word } => {
            number_line(b"fault refused: range of word ", word as u64)
        }
    }
}

/// The line of a file of one fault that is larger than any that is read.
#[tactic(auto, unfolding(crate::specs::RefusalLines::fault_too_large))]
pub(crate) fn fault_too_large() -> &'static [u8]
    ensures { result.now ≡ fault_too_large }
{
    b"fault refused: too large\n"
}

/// The line of why a source is refused; empty for want of memory.
#[tactic(auto, unfolding(crate::specs::RefusalLines::source_line))]
pub(crate) fn source_line(refusal: Refusal) -> Line
    ensures { result.items ≡ source_line refusal }
{
    match refusal {
        Refusal::TooLong => plain_line(b"source refused: TooLong"),
        Refusal::Lex(LexError::BadToken { at }) => source_line_at(b"BadToken", at),
        Refusal::Lex(LexError::LiteralTooLarge { at }) => source_line_at(b"LiteralTooLarge", at),
        Refusal::Lex(LexError::CommentOpen { at }) => source_line_at(b"CommentOpen", at),
        Refusal::Parse(ParseError::NoProgram { at }) => source_line_at(b"NoProgram", at),
        Refusal::Check(CheckError::Fault { kind, at }) => source_line_at(kind_name(kind), at),
        Refusal::Lex(LexError::OutOfMemory)
        | Refusal::Parse(ParseError::OutOfMemory)
        | Refusal::Check(CheckError::OutOfMemory)
        | Refusal::OutOfMemory => ArrayVec::new(),
    }
}

/// The name of a fault of names, types or sizes.
#[tactic(auto, unfolding(crate::specs::RefusalLines::kind_name))]
fn kind_name(kind: CheckKind) -> &'static [u8]
    ensures name { result.now ≡ kind_name kind }
    ensures short { length result.now ≤ 32 }
{
    match kind {
        CheckKind::NameTwice => b"NameTwice",
        CheckKind::PrototypeDiffers => b"PrototypeDiffers",
        CheckKind::BadLength => b"BadLength",
        CheckKind::NotConstant => b"NotConstant",
        CheckKind::TooManyInitialisers => b"TooManyInitialisers",
        CheckKind::NameUnknown => b"NameUnknown",
        CheckKind::NotAFunction => b"NotAFunction",
        CheckKind::NotAnArray => b"NotAnArray",
        CheckKind::NotScalar => b"NotScalar",
        CheckKind::ArgCount => b"ArgCount",
        CheckKind::VoidUsed => b"VoidUsed",
        CheckKind::NotAssignable => b"NotAssignable",
        CheckKind::BadReturn => b"BadReturn",
        CheckKind::BreakOutside => b"BreakOutside",
        CheckKind::CaseTwice => b"CaseTwice",
        CheckKind::NoBody => b"NoBody",
        CheckKind::NoMain => b"NoMain",
        CheckKind::FrameTooLarge => b"FrameTooLarge",
        CheckKind::TooManyBlocks => b"TooManyBlocks",
        CheckKind::StoreTooLarge => b"StoreTooLarge",
    }
}

/// The line of why a source is refused, a kind of at most 32 bytes, and of the offset of the byte where it is.
#[tactic(auto, unfolding(crate::specs::RefusalLines::source_line_at))]
fn source_line_at(kind: &[u8], at: u32) -> Line
    requires { length kind.now ≤ 32 }
    ensures { result.items ≡ source_line_at kind.now at }
{
    let mut line = ArrayVec::new();
    put(&mut line, b"source refused: ");
    put(&mut line, kind);
    put(&mut line, b" at ");
    put_number(&mut line, at as u64);
    line.push(b'\n');
    line
}

fn plain_line(text: &[u8]) -> Line
    requires { length text.now ≤ 40 }
    ensures { result.items ≡ line text.now }
{
    let mut line = ArrayVec::new();
    put(&mut line, text);
    line.push(b'\n');
    line
}

fn number_line(text: &[u8], number: u64) -> Line
    requires { length text.now ≤ 40 }
    ensures { result.items ≡ line (text.now ++ decimal number) }
{
    let mut line = ArrayVec::new();
    put(&mut line, text);
    put_number(&mut line, number);
    line.push(b'\n');
    line
}

// A cause, with how many bytes it needs and how many there are.
fn counts_line(cause: &[u8], need: u64, have: u64) -> Line
    requires { length cause.now ≤ 40 }
    ensures { result.items ≡ line (need_and_have cause.now need have) }
{
    let mut line = ArrayVec::new();
    put(&mut line, cause);
    put(&mut line, b", need ");
    put_number(&mut line, need);
    put(&mut line, b" have ");
    put_number(&mut line, have);
    line.push(b'\n');
    line
}
