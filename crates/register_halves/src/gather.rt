//! From where to where the variables of a function are live.

ghost use Rattle.std.specs.Prelude.{◌≡◌, ℕ, ◌<◌, ◌≤◌, IfOk, length};
ghost use Rattle.mid_blocks.specs.Valid.{ValidFunction};
ghost use Rattle.register_liveness.specs.Met.{AreLives};
ghost use Rattle.register_halves.specs.Spans.{AreSpans};

use hard_words::OutOfMemory;
use mid_blocks::MidFunction;
use register_liveness::{Flow, Lives};
use std::alloc::Global;

/// From the first to the last position where a variable is live.
#[derive(Clone, Copy, Debug, PartialEq, Eq)]
pub struct Span {
    /// The variable.
    pub variable: u32,
    /// The first position.
    pub from: u32,
    /// The last.
    pub to: u32,
}

/// The spans of variables, from where and to where each is live.
pub fn spans_of(
    alloc: Global,
    function: &MidFunction,
    lives: &Lives,
) -> Result<Vec<Span>, OutOfMemory>
    requires { AreLives function.now lives.now.extents.items lives.now.across.items }
    ensures { IfOk result (λ spans. AreSpans function.now spans.items) }
{
    let mut spans = Vec::new(alloc);
    for variable in 0..function.variables {
        match lives.extents[variable as usize] {
            Some(e) => spans.push(Span {
                variable,
                from: e.from,
                to: e.to,
            })?,
            None => {}
        }
    }
    Ok(spans)
}

/// The spans of a function's variables, by ascending variable.
pub fn spans(alloc: Global, function: &MidFunction) -> Result<Vec<Span>, OutOfMemory>
    requires { ValidFunction function.now }
    ensures { IfOk result (λ spans. AreSpans function.now spans.items) }
{
    let flow = Flow::of(alloc, function)?;
    let lives = Lives::of(alloc, function, &flow)?;
    spans_of(alloc, function, &lives)
}
