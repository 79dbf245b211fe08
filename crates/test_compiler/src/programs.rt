//! Programs with what they put out and how they end by ISO/IEC 9899, each run as the language means it, as blocks, and as items whose
//! code is made twice.

use crate::doubled::doubled_program;
use c_eval::{Evaluator, Turn};
use c_meaning::EvalEnd;
use c_parser::parsed_is_labelled;
use check_law::stays_labelled;
use check_rules::Checked;
use compile_chain::checked_source;
use mid_blocks::RunEnd;
use mid_lower::lower;
use mips_isa::End;
use std::alloc::Global;
use std::test::Fail;
use test_oracle::{BlockRan, ItemRan, run_blocks, run_items};

// More turns and items than any of the programs takes.
const STEPS: u64 = 1_000_000;

// The run of a source as items. The input has at most 1,000,000 words.
fn ran(alloc: Global, source: &[u8], input: &[u32]) -> Result<ItemRan, Fail> {
    parsed_is_labelled();
    stays_labelled();
    let checked = checked_source(alloc, source)?;
    let program = doubled_program(alloc, &checked)?;
    if input.len() > 1_000_000 {
        return Err("input")?;
    }
    Ok(run_items(alloc, &program, input, STEPS)?)
}

// The run of a source as blocks.
fn ran_as_blocks(alloc: Global, source: &[u8], input: &[u32]) -> Result<BlockRan, Fail> {
    parsed_is_labelled();
    stays_labelled();
    let checked = checked_source(alloc, source)?;
    let mid = lower(alloc, &checked)?;
    Ok(run_blocks(alloc, &mid, input, STEPS)?)
}

// Whether the language means that the source puts out these words and ends so.
fn means(
    alloc: Global,
    checked: &Checked,
    input: &[u32],
    words: &[u32],
    end: EvalEnd,
) -> Result<bool, Fail> {
    let feed = Vec::from_slice(alloc, input)?;
    let mut evaluator = Evaluator::start(alloc, checked, feed, STEPS)?;
    let mut output = Vec::new(alloc);
    for _ in 0..STEPS {
        match evaluator.turn()? {
            Turn::Working => {}
            Turn::Put(word) => output.push(word)?,
            Turn::Ended(found) => return Ok(output.as_slice() == words && found == end),
        }
    }
    Ok(false)
}

// The end of the items for an end of the language.
fn item_end(end: EvalEnd) -> Option<End> {
    match end {
        EvalEnd::Exited(word) => Some(End::Exited(word)),
        EvalEnd::Trapped(number) => Some(End::Trapped(number)),
        EvalEnd::Starved => Some(End::Starved),
        EvalEnd::Going => None,
    }
}

// The end of the blocks for an end of the language.
fn block_end(end: EvalEnd) -> Option<RunEnd> {
    match end {
        EvalEnd::Exited(word) => Some(RunEnd::Exited(word)),
        EvalEnd::Trapped(number) => Some(RunEnd::Trapped(number)),
        EvalEnd::Starved => Some(RunEnd::Starved),
        EvalEnd::Going => None,
    }
}

// Whether a source puts out these words on an input and ends so, all three ways.
fn row(
    alloc: Global,
    source: &[u8],
    input: &[u32],
    words: &[u32],
    end: EvalEnd,
) -> Result<bool, Fail> {
    let checked = checked_source(alloc, source)?;
    let meant = means(alloc, &checked, input, words, end)?;
    let blocks = ran_as_blocks(alloc, source, input)?;
    let lowered = blocks.output.as_slice() == words && blocks.end == block_end(end);
    let items = ran(alloc, source, input)?;
    let doubled = items.output.as_slice() == words && items.end == item_end(end);
    Ok(meant && lowered && doubled)
}

#[test]
fn means_the_same_three_ways(rt: HostRuntime) -> Result<(), Fail> {
    let rows: [(&[u8], &[u32], &[u32], EvalEnd); 7] = [
        (
            b"int main(void){int a = in_word(); int b = in_word(); out_word(a + b); out_word(a - b); out_word(a * b); out_word(a / b); out_word(a % b); return -a;}",
            &[17, 4_294_967_291],
            &[12, 22, 4_294_967_211, 4_294_967_293, 2],
            EvalEnd::Exited(4_294_967_279),
        ),
        (
            b"int a[4] = {3, 1, 4, 1}; int n = 5; int main(void){a[n - 4] = a[2] + n; int s = 0; for (int i = 0; i < 4; i++) s = s * 10 + a[i]; out_word(s); return a[1];}",
            &[],
            &[3941],
            EvalEnd::Exited(9),
        ),
        (
            b"int main(void){int a = in_word(); int b = a + 1; int c = b + 1; int d = c + 1; int e = d + 1; int f = e + 1; int g = f + 1; int h = g + 1; int i = h + 1; int j = i + 1; int k = j + 1; int l = k + 1; return a + b + c + d + e + f + g + h + i + j + k + l;}",
            &[1],
            &[],
            EvalEnd::Exited(78),
        ),
        (
            b"int main(void){out_word(in_word()); out_word(in_word()); return 0;}",
            &[7],
            &[7],
            EvalEnd::Starved,
        ),
        (
            b"int main(void){for (int i = 0; i < 4; i++) switch (i) {case 0: out_word(10); case 1: out_word(11); break; case 2: out_word(12); break; default: out_word(13);} return 0;}",
            &[],
            &[10, 11, 11, 12, 13],
            EvalEnd::Exited(0),
        ),
        (
            b"int add(int a, int b, int c, int d, int e){return a + 2 * b + 3 * c + 4 * d + 5 * e;} void put(int x){out_word(x); return;} int main(void){put(add(1, 2, 3, 4, 5)); put(add(add(0, 0, 0, 0, 1), 1, 0, 0, 0)); return 0;}",
            &[],
            &[55, 7],
            EvalEnd::Exited(0),
        ),
        (
            b"int a[3]; int main(void){out_word(a[2]); return a[in_word()];}",
            &[3],
            &[0],
            EvalEnd::Trapped(8),
        ),
    ];
    for (source, input, words, end) in rows {
        let same = row(rt.alloc(), source, input, words, end)?;
        assert!(rt; same, "{input:?} {words:?}");
    }
    Ok(())
}
