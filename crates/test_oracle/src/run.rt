//! A run of a program in blocks that stands in the middle.

ghost use Rattle.std.specs.Prelude.{◌≡◌, ◌<◌, ◌+◌, ◌^◌, Option, None, Some, OnOk, OnSome, IfOk, option_copied, slice_get};
ghost use Rattle.mid_blocks.specs.declared.code.MidStep.TheVariants as step;
ghost use Rattle.mid_blocks.specs.declared.code.MidEnd.TheVariants as end;
ghost use Rattle.mid_blocks.specs.Lines.{line_in};
ghost use Rattle.mid_blocks.specs.Run.{after, index_in, global_in, load_from, store_to, sets, sets_or_traps, passes, returns, goes_to, do_step, do_end, do_line, block_step, first_state};
ghost use Rattle.test_oracle.specs.State.{call_of, state_of, block_in};

use crate::locals::Locals;
use crate::operation::operate;
use hard_words::{OutOfMemory, Words};
use mid_blocks::{Mid, MidBlock, MidEnd, MidOp, MidStep, RunEnd};
use std::alloc::Global;
use std::mem;

/// A call that is active.
#[derive(Drop)]
pub(crate) struct Call {
    /// The function's number.
    pub(crate) function: usize,
    /// The block where it stands.
    pub(crate) block: usize,
    /// How many steps of that block are done.
    pub(crate) step: usize,
    /// Its variables.
    pub(crate) locals: Locals,
    /// The caller's variable that takes what it returns.
    pub(crate) result: Option<u32>,
}

/// A run in the middle.
#[derive(Drop)]
pub(crate) struct Run<'a> {
    /// The newest of the active calls.
    pub(crate) current: Call,
    /// The calls that wait for it, the newest last.
    pub(crate) callers: Vec<Call>,
    /// The words of each global.
    pub(crate) globals: Vec<Words>,
    /// What is left of the input.
    pub(crate) feed: &'a [u32],
    /// The words put out so far.
    pub(crate) output: Words,
    /// How it has ended, if it has.
    pub(crate) end: Option<RunEnd>,
}

impl<'a> Run<'a> {
    /// The start of a run: `main` is called.
    pub(crate) fn start(alloc: Global, mid: &Mid, input: &'a [u32]) -> Result<Run<'a>, OutOfMemory>
        ensures { IfOk result (λ run. state_of run ≡ first_state mid.now input.entry.now) }
    {
        let globals = copied(alloc, mid.globals.as_slice())?;
        Ok(Run {
            current: entry(0, Locals::new(alloc), None),
            callers: Vec::new(alloc),
            globals,
            feed: input,
            output: Words::new(alloc),
            end: None,
        })
    }

    /// The run after so many steps more.
    #[tactic(auto, using(crate::proofs::Turns::turn_rules))]
    pub(crate) fn go_on(&mut self, alloc: Global, mid: &Mid, steps: u64) -> Result<(), OutOfMemory>
        ensures { OnOk result (state_of self.new ≡ after mid.now steps (state_of self.old)) }
    {
        let mut left = steps;
        while left > 0 {
            if self.end.is_some() {
                return Ok(());
            }
            self.step(alloc, mid)?;
            left -= 1;
        }
        Ok(())
    }

    // One step of a run that hasn't ended.
    #[tactic(auto, using(crate::proofs::Turns::turn_rules))]
    fn step(&mut self, alloc: Global, mid: &Mid) -> Result<(), OutOfMemory>
        requires { self.old.end ≡ None }
        ensures { OnOk result (state_of self.new ≡ block_step mid.now (state_of self.old)) }
    {
        match block_of(mid, &self.current) {
            None => Ok(()),
            Some(block) => self.do_line(alloc, block),
        }
    }

    // The next line of a block.
    fn do_line(&mut self, alloc: Global, block: &MidBlock) -> Result<(), OutOfMemory>
        requires { self.old.current.block + 1 < 2 ^ 64 }
        ensures { OnOk result (state_of self.new ≡ do_line (line_in (Some block.now) self.old.current.step) (state_of self.old)) }
    {
        match step_of(block, self.current.step) {
            Some(step) => self.do_step(step),
            None => self.do_end(alloc, &block.end),
        }
    }

    // A step of a block.
    fn do_step(&mut self, step: MidStep) -> Result<(), OutOfMemory>
        requires { self.old.current.step + 1 < 2 ^ 64 }
        ensures { OnOk result (state_of self.new ≡ do_step step (state_of self.old)) }
    {
        match step {
            MidStep::Constant { to, word } => self.sets(to, word),
            MidStep::Copy { to, from } => {
                let word = self.current.locals.word(from);
                self.sets(to, word)
            }
            MidStep::Operate {
                op,
                to,
                left,
                right,
            } => self.operates(op, to, left, right),
            MidStep::Guard { global, index } => {
                self.guards(global, index);
                Ok(())
            }
            MidStep::Load { to, global, index } => {
                let word = self.load(global, index);
                self.sets(to, word)
            }
            MidStep::Store {
                global,
                index,
                from,
            } => {
                self.stores(global, index, from);
                Ok(())
            }
            MidStep::Input { to } => self.takes_in(to),
            MidStep::Output { from } => self.puts_out(from),
            MidStep::Deep { test } => {
                self.deepens(test);
                Ok(())
            }
        }
    }

    // The step is done and sets a variable.
    fn sets(&mut self, to: u32, word: u32) -> Result<(), OutOfMemory>
        requires { self.old.current.step + 1 < 2 ^ 64 }
        ensures { OnOk result (state_of self.new ≡ sets (state_of self.old) to word) }
    {
        self.current.step += 1;
        self.current.locals.put(to, word)
    }

    // The step sets a variable to the result of an operation, or traps.
    fn operates(&mut self, op: MidOp, to: u32, left: u32, right: u32) -> Result<(), OutOfMemory>
        requires { self.old.current.step + 1 < 2 ^ 64 }
        ensures { OnOk result (state_of self.new ≡ do_step (step.Operate op to left right) (state_of self.old)) }
    {
        let locals = &self.current.locals;
        match operate(op, locals.word(left), locals.word(right)) {
            Ok(word) => self.sets(to, word),
            Err(trap) => {
                self.end = Some(RunEnd::Trapped(trap));
                Ok(())
            }
        }
    }

    // The words of a global.
    fn global(&self, global: u32) -> &[u32]
        ensures { result.now ≡ global_in self.now.globals.items global }
    {
        match self.globals.get(global as usize) {
            Some(words) => words.as_slice(),
            None => &[],
        }
    }

    // The step traps where an index isn't below the length of a global.
    fn guards(&mut self, global: u32, index: u32)
        requires { self.old.current.step + 1 < 2 ^ 64 }
        ensures { state_of self.new ≡ do_step (step.Guard global index) (state_of self.old) }
    {
        let index = self.current.locals.word(index) as usize;
        if index < self.global(global).len() {
            self.current.step += 1;
        } else {
            self.end = Some(RunEnd::Trapped(8));
        }
    }

    // A word of a global.
    fn load(&self, global: u32, index: Option<u32>) -> u32
        ensures { result ≡ load_from self.now.globals.items global (index_in (call_of self.now.current).variables index) }
    {
        let index = self.current.locals.index(index) as usize;
        match self.global(global).get(index) {
            Some(word) => *word,
            None => 0,
        }
    }

    // The step sets a word of a global.
    fn stores(&mut self, global: u32, index: Option<u32>, from: u32)
        requires { self.old.current.step + 1 < 2 ^ 64 }
        ensures { state_of self.new ≡ do_step (step.Store global index from) (state_of self.old) }
    {
        let index = self.current.locals.index(index) as usize;
        let word = self.current.locals.word(from);
        store(&mut self.globals, global as usize, index, word);
        self.current.step += 1;
    }

    // The step sets a variable to the next word of the input, or the run is starved.
    fn takes_in(&mut self, to: u32) -> Result<(), OutOfMemory>
        requires { self.old.current.step + 1 < 2 ^ 64 }
        ensures { OnOk result (state_of self.new ≡ do_step (step.Input to) (state_of self.old)) }
    {
        match self.feed.split_first() {
            None => {
                self.end = Some(RunEnd::Starved);
                Ok(())
            }
            Some((word, rest)) => {
                self.feed = rest;
                self.sets(to, *word)
            }
        }
    }

    // The step puts out a word.
    fn puts_out(&mut self, from: u32) -> Result<(), OutOfMemory>
        requires { self.old.current.step + 1 < 2 ^ 64 }
        ensures { OnOk result (state_of self.new ≡ do_step (step.Output from) (state_of self.old)) }
    {
        let word = self.current.locals.word(from);
        self.current.step += 1;
        self.output.push(word)
    }

    // The step traps where a variable holds 0.
    fn deepens(&mut self, test: u32)
        requires { self.old.current.step + 1 < 2 ^ 64 }
        ensures { state_of self.new ≡ do_step (step.Deep test) (state_of self.old) }
    {
        if self.current.locals.word(test) == 0 {
            self.end = Some(RunEnd::Trapped(9));
        } else {
            self.current.step += 1;
        }
    }

    // The end of a block.
    fn do_end(&mut self, alloc: Global, end: &MidEnd) -> Result<(), OutOfMemory>
        requires { self.old.current.block + 1 < 2 ^ 64 }
        ensures { OnOk result (state_of self.new ≡ do_end end.now (state_of self.old)) }
    {
        match end {
            MidEnd::Jump { to } => {
                self.goes_to(*to as usize);
                Ok(())
            }
            MidEnd::Branch { test, when, to } => {
                let is_taken = (self.current.locals.word(*test) != 0) == *when;
                let next = self.current.block + 1;
                self.goes_to(if is_taken { *to as usize } else { next });
                Ok(())
            }
            MidEnd::Call {
                function,
                args,
                result: to,
            } => self.calls(alloc, *function, args.as_slice(), *to),
            MidEnd::Return { from } => {
                let word = self.current.locals.index(*from);
                self.returns(word)
            }
        }
    }

    // The current call goes on at a block.
    fn goes_to(&mut self, block: usize)
        ensures { state_of self.new ≡ goes_to (state_of self.old) block }
    {
        self.current.block = block;
        self.current.step = 0;
    }

    // A call begins.
    #[tactic(auto, using(crate::proofs::Turns::turn_rules))]
    fn calls(
        &mut self,
        alloc: Global,
        function: u32,
        args: &[u32],
        to: Option<u32>,
    ) -> Result<(), OutOfMemory>
        requires { self.old.current.block + 1 < 2 ^ 64 }
        ensures { OnOk result (state_of self.new ≡ do_end (end.Call function args.now to) (state_of self.old)) }
    {
        let locals = self.current.locals.parameters(alloc, args)?;
        let entered = entry(function as usize, locals, to);
        self.current.block += 1;
        self.current.step = 0;
        let caller = mem::replace(&mut self.current, entered);
        self.callers.push(caller)?;
        Ok(())
    }

    // A word is returned to the caller that waits, or by `main`.
    #[tactic(auto, using(crate::proofs::Turns::turn_rules))]
    fn returns(&mut self, word: u32) -> Result<(), OutOfMemory>
        ensures { OnOk result (state_of self.new ≡ returns (state_of self.old) (state_of self.old).callers word) }
    {
        match self.callers.pop() {
            None => {
                self.end = Some(RunEnd::Exited(word));
                Ok(())
            }
            Some(caller) => {
                let to = self.current.result;
                self.current = caller;
                self.current.locals.put_result(to, word)
            }
        }
    }
}

// A call at the first block of its function.
fn entry(function: usize, locals: Locals, result_to: Option<u32>) -> Call
    ensures { result ≡ record { function = function; block = 0; step = 0; locals = locals; result = result_to } }
{
    Call {
        function,
        block: 0,
        step: 0,
        locals,
        result: result_to,
    }
}

// The block where a call stands; a next one has a number too.
fn block_of<'a>(mid: &'a Mid, call: &Call) -> Option<&'a MidBlock>
    ensures found { option_copied result ≡ block_in (slice_get mid.entry.now.functions call.now.function) call.now.block }
    ensures room { OnSome result (call.now.block + 1 < 2 ^ 64) }
{
    match mid.functions.get(call.function) {
        Some(function) => block_at(function.blocks.as_slice(), call.block),
        None => None,
    }
}

// The block at a place.
fn block_at<'a>(blocks: &'a [MidBlock], at: usize) -> Option<&'a MidBlock>
    ensures found { option_copied result ≡ slice_get blocks.entry.now at }
    ensures room { OnSome result (at + 1 < 2 ^ 64) }
{
    if at < blocks.len() {
        Some(&blocks[at])
    } else {
        None
    }
}

// The step of a block with so many before it; they are few enough for one more.
fn step_of(block: &MidBlock, done: usize) -> Option<MidStep>
    ensures found { result ≡ slice_get block.now.steps done }
    ensures room { OnSome result (done + 1 < 2 ^ 64) }
{
    let steps = block.steps.as_slice();
    if done < steps.len() {
        Some(steps[done])
    } else {
        None
    }
}

// The words of each global, copied.
fn copied(alloc: Global, globals: &[Words]) -> Result<Vec<Words>, OutOfMemory>
    ensures { IfOk result (λ copies. copies.items ≡ globals.now) }
{
    let mut copies = Vec::new(alloc);
    for global in globals {
        let words = Vec::from_slice(alloc, global.as_slice())?;
        copies.push(Words::from_vec(words))?;
    }
    Ok(copies)
}

// Sets a word of a global; where there is no such word, nothing happens.
fn store(globals: &mut [Words], global: usize, index: usize, word: u32)
    ensures { globals.new ≡ store_to globals.old global index word }
{
    if global < globals.len() && index < globals[global].len() {
        globals[global].set(index, word);
    }
}
