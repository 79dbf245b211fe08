//! A run that stands in the middle, and its next piece of work.

ghost use Rattle.std.specs.Prelude.{◌≡◌, ◌≤◌, ◌<◌, IfOk, OnErr, IsTrue};
ghost use Rattle.c_meaning.specs.Meaning.{first_word, run_of};
ghost use Rattle.check_rules.specs.Limits.{resolved_names};
ghost use Rattle.eval_parts.specs.Parts.{exit_of};
ghost use Rattle.eval_parts.specs.Steps.{is_inner};
ghost use Rattle.eval_parts.specs.Tables.{KnowsRecursive};
ghost use Rattle.c_eval.specs.Running.{Turned, put_first};

use crate::turn::Turn;
use c_meaning::{EvalEnd, Value};
use check_rules::Checked;
use eval_parts::{Code, Given, Layer, Next, Now, ends_so, output_stays};
use eval_state::Memory;
use eval_steps::{begin, called, next_word, resume};
use sqlite_items::Items;
use std::alloc::{AllocError, Global};
use std::mem;

/// A run in the middle.
#[derive(Drop)]
pub(crate) struct Machine<'a> {
    /// The program.
    code: Code<'a>,
    /// The name of `main`.
    main: u32,
    /// In the present function so many more calls may be open.
    level: u64,
    /// What waits, the newest last.
    layers: Vec<Layer<'a>>,
    /// The part that begins.
    now: Now<'a>,
    /// The variables, the input and the fuel.
    memory: Memory,
    /// The fuel at the start.
    most: u64,
    ghost within: { memory.fuel ≤ most },
}

#[tactic(auto, using(crate::proofs::Stacked::stack_rules))]
impl<'a> Machine<'a> {
    ghost use Rattle.c_eval.specs.Rest.{rest_of, rest_after, work_of, work_after, seen};

    /// The run of a checked program at its start.
    pub(crate) fn start(
        alloc: Global,
        checked: &'a Checked,
        recursive: Vec<bool>,
        feed: Vec<u32>,
        turns: u64,
    ) -> Result<Machine<'a>, AllocError>
        requires { KnowsRecursive recursive.items checked.now.program.items }
        ensures { IfOk result (λ m. (seen m).rest ≡ run_of (resolved_names checked.entry.now) checked.entry.now.program feed.items turns) }
    {
        ends_so();
        let items = checked.program().items.as_slice();
        let code = Code::new(alloc, items, recursive)?;
        let memory = Memory::start(alloc, items, feed, turns)?;
        let main = checked.main();
        Ok(Machine {
            code,
            main,
            level: turns,
            layers: Vec::new(alloc),
            now: Now::Enter {
                name: main,
                args: Items::new(alloc),
            },
            memory,
            most: turns,
        })
    }

    /// A piece of work.
    pub(crate) fn turn(&mut self, alloc: Global) -> Result<Turn, AllocError>
        ensures turned { IfOk result (λ t. Turned t (seen self.old) (seen self.new)) }
        ensures wanting { OnErr result (0 < (seen self.old).left) }
    {
        match mem::replace(&mut self.now, Now::Over(EvalEnd::Starved)) {
            Now::Over(end) => {
                self.now = Now::Over(end);
                Ok(Turn::Ended(end))
            }
            Now::Given(given) => {
                self.give(given)?;
                Ok(Turn::Working)
            }
            Now::Call { name, args } => {
                self.call(name, args)?;
                Ok(Turn::Working)
            }
            Now::Enter { name, args } => {
                if name == 1 {
                    return Ok(Turn::Put(self.put_out(args)));
                }
                self.enter(name, args)?;
                Ok(Turn::Working)
            }
            now => {
                self.work(alloc, now)?;
                Ok(Turn::Working)
            }
        }
    }

    fn work(&mut self, alloc: Global, now: Now<'a>) -> Result<(), AllocError>
        requires { IsTrue (is_inner now) }
        ensures rest { IfOk result (λ u. rest_of self.old now.entry ≡ rest_of self.new self.new.now) }
        ensures falls { IfOk result (λ u. work_of self.new self.new.now < work_of self.old now.entry) }
    {
        let next = begin(alloc, &mut self.memory, now)?;
        self.go_on(next)
    }

    fn go_on(&mut self, next: Next<'a>) -> Result<(), AllocError>
        ensures rest { IfOk result (λ u. rest_after self.old next.entry ≡ rest_of self.new self.new.now) }
        ensures work { IfOk result (λ u. work_of self.new self.new.now ≡ work_after self.old next.entry) }
    {
        self.now = next.now;
        match next.waiting {
            None => Ok(()),
            Some(frame) => {
                self.layers.push(Layer::Frame(frame))?;
                Ok(())
            }
        }
    }

    fn give(&mut self, given: Given) -> Result<(), AllocError>
        ensures rest { IfOk result (λ u. rest_of self.old (Now.Given given) ≡ rest_of self.new self.new.now) }
        ensures falls { IfOk result (λ u. work_of self.new self.new.now < work_of self.old (Now.Given given)) }
    {
        match self.layers.pop() {
            None => {
                self.now = Now::Over(exit(given));
                Ok(())
            }
            Some(Layer::Caller(level)) => {
                self.level = level;
                self.now = Now::Given(given);
                Ok(())
            }
            Some(Layer::Frame(frame)) => {
                let next = resume(&self.code, &mut self.memory, frame, given)?;
                self.go_on(next)
            }
        }
    }

    fn call(&mut self, name: u32, args: Items<Value>) -> Result<(), AllocError>
        ensures rest { IfOk result (λ u. rest_of self.old (Now.Call name args) ≡ rest_of self.new self.new.now) }
        ensures falls { IfOk result (λ u. work_of self.new self.new.now < work_of self.old (Now.Call name args)) }
    {
        if self.level == 0 {
            self.now = Now::Over(EvalEnd::Going);
            return Ok(());
        }
        self.layers.push(Layer::Caller(self.level))?;
        self.level -= 1;
        self.now = Now::Enter { name, args };
        Ok(())
    }

    fn enter(&mut self, name: u32, args: Items<Value>) -> Result<(), AllocError>
        requires { name ≡ 1 → ⊥ }
        ensures rest { IfOk result (λ u. rest_of self.old (Now.Enter name args) ≡ rest_of self.new self.new.now) }
        ensures falls { IfOk result (λ u. work_of self.new self.new.now < work_of self.old (Now.Enter name args)) }
    {
        if name == 0 {
            let next = next_word(&mut self.memory);
            self.go_on(next)?;
            return Ok(());
        }
        let next = called(&self.code, &mut self.memory, name, args);
        self.go_on(next)?;
        Ok(())
    }

    fn put_out(&mut self, args: Items<Value>) -> u32
        ensures rest { rest_of self.old (Now.Enter 1 args) ≡ put_first result (rest_of self.new self.new.now) }
        ensures falls { work_of self.new self.new.now < work_of self.old (Now.Enter 1 args) }
    {
        output_stays();
        self.now = Now::Given(Given::Value(Value {
            word: 0,
            is_unsigned: false,
        }));
        first_word(args)
    }
}

fn first_word(args: Items<Value>) -> u32
    ensures { result ≡ first_word args }
{
    match args.get(0) {
        None => 0,
        Some(v) => v.word,
    }
}

fn exit(given: Given) -> EvalEnd
    ensures { result ≡ exit_of given }
{
    match given {
        Given::Value(v) => EvalEnd::Exited(v.word),
        Given::Place(_) | Given::Flow(_) => EvalEnd::Starved,
    }
}
