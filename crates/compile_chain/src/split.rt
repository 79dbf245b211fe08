//! From a source to its image without critical edges.

ghost use Rattle.std.specs.Prelude.{◌≡◌, ◌<◌, IfOk, IfErr, Err, IsOkUnless, length, map, sum};
ghost use Rattle.elf_image.specs.Layout.{fields_of};
ghost use Rattle.check_rules.specs.Resolution.{IsChecked};
ghost use Rattle.c_syntax.specs.Labels.{bare_clauses};
ghost use Rattle.c_syntax.specs.Graph.{with_bodies};
ghost use Rattle.compile_rules.specs.Compiled.{IsAccepted, IsNotCompiled, CompilesSplit, longest_source};
ghost use Rattle.compile_chain.specs.Parts.{IsSplitImageOfChecked};

use crate::compiler::checked_source;
use crate::lowered_image::{lowered_is_hardened, lowered_is_small};
use c_parser::parsed_is_labelled;
use check_law::{nodes_stay, stays_labelled, stays_light};
use check_rules::Checked;
use compile_rules::Refusal;
use elf_image::Image;
use hard_words::OutOfMemory;
use harden::compile_blocks_split;
use mid_lower::lower;
use std::alloc::Global;

/// The image of a source of at most 1,048,576 bytes without critical edges: as that of [`compile`](crate::compile), but each edge from a
/// block with at least two successors to a block with at least two predecessors goes through a block of its own, so that its text has no
/// aliases.
///
/// A source is accepted exactly where [`compile`](crate::compile) accepts it.
///
/// # Errors
///
/// Those of [`compile`](crate::compile), in the same order.
pub fn compile_split(alloc: Global, source: &[u8]) -> Result<Image, Refusal>
    ensures ok { IfOk result (λ image. CompilesSplit source.now (fields_of image)) }
    ensures accepted { IfOk result (λ image. IsAccepted source.now) }
    ensures refused { IfErr result (λ refusal. IsNotCompiled source.now refusal) }
    ensures too_long { longest_source < length source.now → result ≡ Err Refusal.TooLong }
    ensures complete { IsAccepted source.now → IsOkUnless result Refusal.OutOfMemory }
{
    parsed_is_labelled();
    stays_labelled();
    lowered_is_hardened();
    nodes_stay();
    stays_light();
    match checked_source(alloc, source) {
        Err(refusal) => Err(refusal),
        Ok(checked) => match split_checked(alloc, &checked) {
            Err(OutOfMemory) => Err(Refusal::OutOfMemory),
            Ok(image) => Ok(image),
        },
    }
}

/// The image of a checked program, with its critical edges split.
fn split_checked(alloc: Global, checked: &Checked) -> Result<Image, OutOfMemory>
    requires checked { IsChecked checked.now }
    requires labelled { sum (map bare_clauses (with_bodies checked.now.program.items)) ≡ 0 }
    ensures { IfOk result (λ image. IsSplitImageOfChecked checked.now (fields_of image)) }
{
    lowered_is_small();
    let mid = lower(alloc, checked)?;
    compile_blocks_split(alloc, &mid)
}
