//! From a source to its checked program and to its image.

ghost use Rattle.std.specs.Prelude.{◌≡◌, ◌<◌, ◌≤◌, IfOk, IfErr, Ok, Err, IsOkUnless, length, map, sum};
ghost use Rattle.elf_image.specs.Layout.{fields_of};
ghost use Rattle.c_lexer.specs.Order.{InOrder};
ghost use Rattle.c_meaning.specs.Meaning.{source_names};
ghost use Rattle.c_syntax.specs.Shaped.{Shaped};
ghost use Rattle.c_syntax.specs.Sizes.{program_nodes};
ghost use Rattle.check_rules.specs.Limits.{checked};
ghost use Rattle.check_rules.specs.Resolution.{most_nodes, IsChecked};
ghost use Rattle.c_syntax.specs.Labels.{bare_clauses};
ghost use Rattle.c_syntax.specs.Graph.{with_bodies};
ghost use Rattle.compile_rules.specs.Compiled.{IsAccepted, IsCheckedSource, IsNotCompiled, Compiles, longest_source};
ghost use Rattle.compile_chain.specs.Parts.{IsCheckedTokens, IsImageOfChecked, RefusesProgram, RefusesTokens};

use crate::lowered_image::{lowered_is_hardened, lowered_is_small};
use c_check::check;
use c_lexer::{Token, tokens};
use c_parser::{parse, parsed_is_labelled};
use c_syntax::Program;
use check_law::{nodes_stay, stays_labelled, stays_light};
use check_rules::Checked;
use compile_rules::Refusal;
use elf_image::Image;
use hard_words::OutOfMemory;
use harden::compile_blocks;
use mid_lower::lower;
use std::alloc::Global;

/// The greatest number of bytes of a source.
pub const LONGEST_SOURCE: u64 = 1_048_576;

/// The image of a source of at most 1,048,576 bytes: the source's program made twice, with checks and signatures, as words for the
/// machine, and the lists of its windows and aliases.
///
/// A source is accepted exactly where it is the text of a program without fault.
///
/// # Errors
///
/// The first of these that holds: `TooLong`, where the source has more bytes; `Lex`, the first fault
/// of its tokens (ISO/IEC 9899, 6.4); `Parse`, where they are no program of depth at most 256 (6.5 to
/// 6.9); `Check`, the first fault of its names, types and sizes. `TooLong` takes no memory; `OutOfMemory` may stand in
/// place of any other answer.
pub fn compile(alloc: Global, source: &[u8]) -> Result<Image, Refusal>
    ensures ok { IfOk result (λ image. Compiles source.now (fields_of image)) }
    ensures accepted { IfOk result (λ image. IsAccepted source.now) }
    ensures refused { IfErr result (λ refusal. IsNotCompiled source.now refusal) }
    ensures too_long { longest_source < length source.now → result ≡ Err Refusal.TooLong }
    ensures complete { IsAccepted source.now → IsOkUnless result Refusal.OutOfMemory }
{
    parsed_is_labelled();
    stays_labelled();
    lowered_is_hardened();
    nodes_stay();
    stays_light();
    match checked_source(alloc, source) {
        Err(refusal) => Err(refusal),
        Ok(checked) => match compile_checked(alloc, &checked) {
            Err(OutOfMemory) => Err(Refusal::OutOfMemory),
            Ok(image) => Ok(image),
        },
    }
}

/// The checked program of a source of at most 1,048,576 bytes: that of the source's program, with positions for names.
///
/// # Errors
///
/// Those of [`compile`], in the same order.
pub fn checked_source(alloc: Global, source: &[u8]) -> Result<Checked, Refusal>
    ensures ok { IfOk result (λ c. IsCheckedSource source.now c) }
    ensures refused { IfErr result (λ refusal. IsNotCompiled source.now refusal) }
    ensures too_long { longest_source < length source.now → result ≡ Err Refusal.TooLong }
    ensures complete { IsAccepted source.now → IsOkUnless result Refusal.OutOfMemory }
{
    if source.len() as u64 > LONGEST_SOURCE {
        return Err(Refusal::TooLong);
    }
    let tokens = tokens(alloc, source)?;
    checked_tokens(alloc, &tokens)
}

/// The checked program of the tokens of a source.
fn checked_tokens(alloc: Global, tokens: &[Token]) -> Result<Checked, Refusal>
    requires order { InOrder 0 tokens.now }
    requires few { length tokens.now ≤ longest_source }
    ensures ok { IfOk result (λ c. IsCheckedTokens tokens.now c) }
    ensures refused { IfErr result (λ refusal. RefusesTokens tokens.now refusal) }
{
    let program = parse(alloc, tokens)?;
    checked_program(alloc, program)
}

/// The checked program of a program.
fn checked_program(alloc: Global, program: Program) -> Result<Checked, Refusal>
    requires shaped { Shaped program }
    requires few { program_nodes program ≤ most_nodes }
    ensures ok { IfOk result (λ c. checked source_names program ≡ Ok c) }
    ensures refused { IfErr result (λ refusal. RefusesProgram program refusal) }
{
    let checked = check(alloc, program)?;
    Ok(checked)
}

/// The image of a checked program.
fn compile_checked(alloc: Global, checked: &Checked) -> Result<Image, OutOfMemory>
    requires checked { IsChecked checked.now }
    requires labelled { sum (map bare_clauses (with_bodies checked.now.program.items)) ≡ 0 }
    ensures { IfOk result (λ image. IsImageOfChecked checked.now (fields_of image)) }
{
    lowered_is_small();
    let mid = lower(alloc, checked)?;
    compile_blocks(alloc, &mid)
}
