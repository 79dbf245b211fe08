//! Steps of loops.

ghost use Rattle.std.specs.Prelude.{◌≡◌, ◌+◌, ◌≤◌};
ghost use Rattle.eval_parts.specs.Parts.{Works, Takes, Resumes};
ghost use Rattle.eval_parts.specs.Work.{Falls, FallsFrom};
ghost use Rattle.eval_parts.specs.Steps.{FallsWithin};

use c_meaning::{Flow, Value};
use c_syntax::{Expr, Stmt};
use eval_parts::{
    Frame, Given, Loop, Next, Now, OnFlow, OnValue, body, flow_of, goes, tested, value_of,
};
use eval_state::Memory;
use sqlite_items::Boxed;

/// The first turn of a `do`.
pub fn first_turn<'a>(memory: &mut Memory, test: &'a Expr, body: &'a Boxed<Stmt>) -> Next<'a>
    ensures does { Works (Now.Do test.entry body.entry) memory.old result memory.new }
    ensures falls { Falls (Now.Do test.entry body.entry) result }
    ensures fuel { memory.new.fuel ≤ memory.old.fuel }
{
    match memory.spend() {
        Ok(()) => flow_of(Now::Stmt(body.get()), OnFlow::AfterFirst { test, body }),
        Err(end) => goes(Now::Over(end)),
    }
}

/// A turn of a loop, whose test is known.
pub fn next_turn<'a>(memory: &mut Memory, left: u64, turn: Loop<'a>, test: Value) -> Next<'a>
    ensures does { Takes (Frame.OnValue (OnValue.Test left turn.entry)) (Given.Value test) memory.old result memory.new }
    ensures falls { FallsFrom (Frame.OnValue (OnValue.Test left turn.entry)) result }
    ensures fuel { memory.new.fuel ≤ memory.old.fuel }
{
    if test.word == 0 {
        return goes(Now::Given(Given::Flow(Flow::Normal)));
    }
    match memory.spend() {
        Ok(()) => flow_of(Now::Stmt(body(turn)), OnFlow::AfterTurn { left, turn }),
        Err(end) => goes(Now::Over(end)),
    }
}

/// A loop, from its first test on.
pub fn whole_loop<'a>(memory: &Memory, turn: Loop<'a>) -> Next<'a>
    ensures does { Works (Now.Loop turn.entry) memory.now result memory.now }
    ensures falls { FallsWithin memory.now.fuel (Now.Loop turn.entry) result }
{
    tested(memory.fuel(), turn)
}

/// What follows a turn of a loop.
pub fn after_turn<'a>(left: u64, turn: Loop<'a>, flow: Flow) -> Next<'a>
    ensures does { Resumes (Frame.OnFlow (OnFlow.AfterTurn left turn.entry)) (Given.Flow flow) result }
    ensures falls { FallsFrom (Frame.OnFlow (OnFlow.AfterTurn left turn.entry)) result }
{
    match flow {
        Flow::Breaks => goes(Now::Given(Given::Flow(Flow::Normal))),
        Flow::Returns(v) => goes(Now::Given(Given::Flow(Flow::Returns(v)))),
        Flow::Normal | Flow::Continues => match turn {
            Loop::While { .. } => goes(Now::Turns { left, turn }),
            Loop::For { next, .. } => match next {
                None => goes(Now::Turns { left, turn }),
                Some(e) => value_of(Now::Expr(e), OnValue::Next { left, turn }),
            },
        },
    }
}

/// What follows the first turn of a `do`.
pub fn after_first<'a>(test: &'a Expr, body: &'a Boxed<Stmt>, flow: Flow) -> Next<'a>
    ensures does { Resumes (Frame.OnFlow (OnFlow.AfterFirst test.entry body.entry)) (Given.Flow flow) result }
    ensures falls { FallsFrom (Frame.OnFlow (OnFlow.AfterFirst test.entry body.entry)) result }
{
    match flow {
        Flow::Breaks => goes(Now::Given(Given::Flow(Flow::Normal))),
        Flow::Returns(v) => goes(Now::Given(Given::Flow(Flow::Returns(v)))),
        Flow::Normal | Flow::Continues => goes(Now::Loop(Loop::While { test, body })),
    }
}
