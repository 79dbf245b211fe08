//! Blocks that grow line by line.

ghost use Rattle.std.specs.Prelude.{◌≡◌, ◌++◌, [], ◌∷◌, IfOk, OnOk};
ghost use Rattle.mid_blocks.specs.Lines.{Step, End};
ghost use Rattle.lower_rules.specs.Functions.{cut};
ghost use Rattle.lower_expressions.specs.Written.{written};

use hard_words::{OutOfMemory, Sequence};
use mid_blocks::{MidBlock, MidEnd, MidStep};
use std::alloc::Global;
use std::mem;

/// The blocks so far, and the steps of the block that is open.
#[derive(Drop)]
pub struct Builder {
    blocks: Sequence<MidBlock>,
    steps: Sequence<MidStep>,
}

impl Builder {
    /// No lines. It takes no memory.
    pub fn new(alloc: Global) -> Builder
        ensures { written result ≡ [] }
    {
        Builder {
            blocks: Sequence::new(alloc),
            steps: Sequence::new(alloc),
        }
    }

    /// Adds a step.
    pub fn step(&mut self, step: MidStep) -> Result<(), OutOfMemory>
        ensures { OnOk result (written self.new ≡ written self.old ++ Step step ∷ []) }
    {
        self.steps.push(step)?;
        Ok(())
    }

    /// Adds an end, which closes the open block.
    pub fn end(&mut self, alloc: Global, end: MidEnd) -> Result<(), OutOfMemory>
        ensures { OnOk result (written self.new ≡ written self.old ++ End end ∷ []) }
    {
        let steps = mem::replace(&mut self.steps, Sequence::new(alloc));
        self.blocks.push(MidBlock { steps, end })?;
        Ok(())
    }

    /// The blocks that were closed.
    pub fn into_blocks(self) -> Sequence<MidBlock>
        ensures { result ≡ cut [] (written self) }
    {
        let Builder { blocks, .. } = self;
        blocks
    }
}
