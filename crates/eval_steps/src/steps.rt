//! One step: from the part that begins, or from what a frame is given, to what comes next.

ghost use Rattle.std.specs.Prelude.{◌≡◌, ◌+◌, ◌≤◌, IfOk, IsTrue};
ghost use Rattle.eval_parts.specs.Parts.{Works, Takes, TakesIn};
ghost use Rattle.eval_parts.specs.Work.{FallsFrom};
ghost use Rattle.eval_parts.specs.Steps.{is_inner, FallsWithin};

use crate::calls::{function, left, no_longer_active};
use c_meaning::{EvalEnd, Flow, Place, Value};
use eval_parts::{Code, Frame, Given, Next, Now, OnFlow, OnPlace, OnValue, goes, value_of};
use eval_state::Memory;
use eval_statements::{
    after_first, after_switch, after_turn, block, branch, closed, declared, first_turn, for_loop,
    next_turn, normal_then, switched, whole_loop,
};
use eval_values::{
    arguments, assigned, bumped, choice, converted, fetched, index_of, initialised, logic,
    next_argument, operated, stored, stored_by, truth, unary,
};
use std::alloc::{AllocError, Global};

/// A part that begins within the present function.
pub fn begin<'a>(alloc: Global, memory: &mut Memory, now: Now<'a>) -> Result<Next<'a>, AllocError>
    requires { IsTrue (is_inner now) }
    ensures does { IfOk result (λ n. Works now.entry memory.old n memory.new) }
    ensures falls { IfOk result (λ n. FallsWithin memory.old.fuel now.entry n) }
    ensures fuel { memory.new.fuel ≤ memory.old.fuel }
{
    match now {
        Now::Expr(e) => Ok(eval_parts::expression(alloc, e)),
        Now::Place(e) => Ok(eval_parts::place(e)),
        Now::Fetch(place) => Ok(fetched(memory, place)),
        Now::Args { name, args, values } => Ok(arguments(name, args, values)),
        Now::Function { function: f, args } => function(alloc, memory, f, args),
        Now::Stmt(c) => Ok(eval_parts::statement(c)),
        Now::Stmts(list) => Ok(eval_parts::statements(list)),
        Now::Local(d) => declared(memory, d),
        Now::Locals(list) => Ok(eval_parts::locals(list)),
        Now::Clauses(list) => Ok(eval_parts::clauses(list)),
        Now::Search { word, left, all } => Ok(eval_parts::search(word, left, all)),
        Now::Labels {
            word,
            labels,
            here,
            left,
            all,
        } => Ok(eval_parts::labels(word, labels, here, left, all)),
        Now::Block(body) => block(memory, body),
        Now::For { first, turn } => for_loop(memory, first, turn),
        Now::InFor { first, turn } => Ok(eval_parts::in_for(first, turn)),
        Now::Do { test, body } => Ok(first_turn(memory, test, body)),
        Now::Loop(turn) => Ok(whole_loop(memory, turn)),
        Now::Turns { left, turn } => Ok(eval_parts::turns(left, turn)),
        Now::Call { .. } | Now::Enter { .. } | Now::Given(_) | Now::Over(_) => unreachable!(),
    }
}

/// A frame that is given a value.
fn with_value<'a>(
    code: &Code,
    memory: &mut Memory,
    f: OnValue<'a>,
    v: Value,
) -> Result<Next<'a>, AllocError>
    ensures does { IfOk result (λ n. TakesIn code.now (Frame.OnValue f.entry) (Given.Value v) memory.old n memory.new) }
    ensures falls { IfOk result (λ n. FallsFrom (Frame.OnValue f.entry) n) }
    ensures fuel { memory.new.fuel ≤ memory.old.fuel }
{
    match f {
        OnValue::IndexOf(name) => Ok(index_of(memory, name, v)),
        OnValue::Args {
            name,
            others,
            values,
        } => next_argument(name, others, values, v),
        OnValue::Unary(op) => Ok(unary(op, v)),
        OnValue::Right(op, right) => Ok(value_of(Now::Expr(right), OnValue::Operate(op, v))),
        OnValue::Operate(op, x) => Ok(operated(op, x, v)),
        OnValue::Logic(is_and, right) => Ok(logic(is_and, right, v)),
        OnValue::Tested => Ok(goes(Now::Given(truth(v.word != 0)))),
        OnValue::Choose(yes, no) => Ok(choice(code, memory, yes, no, v)),
        OnValue::Convert(is_unsigned) => {
            Ok(goes(Now::Given(Given::Value(converted(is_unsigned, v)))))
        }
        OnValue::Store(place) => Ok(stored(memory, place, v.word)),
        OnValue::StoreBy(op, place, old) => Ok(stored_by(memory, op, place, old, v)),
        OnValue::Second(right) => Ok(goes(Now::Expr(right))),
        OnValue::EndActive(before) => Ok(no_longer_active(memory, before, v)),
        OnValue::Discard => Ok(goes(Now::Given(Given::Flow(Flow::Normal)))),
        OnValue::Initialise(name) => Ok(initialised(memory, name, v)),
        OnValue::If(yes, no) => Ok(branch(yes, no, v)),
        OnValue::Test { left, turn } => Ok(next_turn(memory, left, turn, v)),
        OnValue::Next { left, turn } => Ok(goes(Now::Turns { left, turn })),
        OnValue::Switch(clauses) => Ok(switched(clauses, v)),
        OnValue::Return => Ok(goes(Now::Given(Given::Flow(Flow::Returns(v))))),
    }
}

/// A frame that is given a place.
fn with_place<'a>(memory: &mut Memory, f: OnPlace<'a>, place: Place) -> Next<'a>
    ensures does { Takes (Frame.OnPlace f.entry) (Given.Place place) memory.old result memory.new }
    ensures falls { FallsFrom (Frame.OnPlace f.entry) result }
    ensures fuel { memory.new.fuel ≤ memory.old.fuel }
{
    match f {
        OnPlace::Fetch => fetched(memory, place),
        OnPlace::Assign(op, right) => assigned(memory, op, right, place),
        OnPlace::Bump { up, before } => bumped(memory, up, before, place),
    }
}

/// A frame that is given a flow.
fn with_flow<'a>(memory: &mut Memory, f: OnFlow<'a>, flow: Flow) -> Next<'a>
    ensures does { Takes (Frame.OnFlow f.entry) (Given.Flow flow) memory.old result memory.new }
    ensures falls { FallsFrom (Frame.OnFlow f.entry) result }
    ensures fuel { memory.new.fuel ≤ memory.old.fuel }
{
    match f {
        OnFlow::Stmts(list) => goes(normal_then(flow, Now::Stmts(list))),
        OnFlow::Locals(list) => goes(normal_then(flow, Now::Locals(list))),
        OnFlow::Clauses(list) => goes(normal_then(flow, Now::Clauses(list))),
        OnFlow::Loop(turn) => goes(normal_then(flow, Now::Loop(turn))),
        OnFlow::CloseScope => closed(memory, flow),
        OnFlow::AfterFirst { test, body } => after_first(test, body, flow),
        OnFlow::AfterTurn { left, turn } => after_turn(left, turn, flow),
        OnFlow::EndSwitch => after_switch(flow),
        OnFlow::Leave {
            scopes,
            is_unsigned,
        } => left(memory, scopes, is_unsigned, flow),
    }
}

/// A frame that is given something.
pub fn resume<'a>(
    code: &Code,
    memory: &mut Memory,
    frame: Frame<'a>,
    given: Given,
) -> Result<Next<'a>, AllocError>
    ensures does { IfOk result (λ n. TakesIn code.now frame.entry given memory.old n memory.new) }
    ensures falls { IfOk result (λ n. FallsFrom frame.entry n) }
    ensures fuel { memory.new.fuel ≤ memory.old.fuel }
{
    match frame {
        Frame::OnValue(f) => match given {
            Given::Value(v) => with_value(code, memory, f, v),
            Given::Place(_) | Given::Flow(_) => Ok(goes(Now::Over(EvalEnd::Starved))),
        },
        Frame::OnPlace(f) => match given {
            Given::Place(p) => Ok(with_place(memory, f, p)),
            Given::Value(_) | Given::Flow(_) => Ok(goes(Now::Over(EvalEnd::Starved))),
        },
        Frame::OnFlow(f) => match given {
            Given::Flow(flow) => Ok(with_flow(memory, f, flow)),
            Given::Value(_) | Given::Place(_) => Ok(goes(Now::Over(EvalEnd::Starved))),
        },
    }
}
