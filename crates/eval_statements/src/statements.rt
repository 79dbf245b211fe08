//! Steps of statements that are no loops.

ghost use Rattle.std.specs.Prelude.{◌≡◌, ◌+◌, ◌≤◌, IfOk};
ghost use Rattle.eval_parts.specs.Parts.{Works, Takes, Resumes, if_normal_now};
ghost use Rattle.eval_parts.specs.Work.{Falls, FallsFrom};

use c_meaning::{Flow, Value};
use c_syntax::{Clause, Local, Stmt, Ty};
use eval_parts::{Frame, Given, Loop, Next, Now, OnFlow, OnValue, flow_of, goes, value_of};
use eval_state::Memory;
use sqlite_items::{Boxed, Items};
use std::alloc::AllocError;

/// A declarator: its variable begins as 0.
pub fn declared<'a>(memory: &mut Memory, d: &'a Local) -> Result<Next<'a>, AllocError>
    ensures does { IfOk result (λ n. Works (Now.Local d.entry) memory.old n memory.new) }
    ensures falls { IfOk result (λ n. Falls (Now.Local d.entry) n) }
    ensures fuel { memory.new.fuel ≤ memory.old.fuel }
{
    memory.enter(
        d.name,
        Value {
            word: 0,
            is_unsigned: d.ty == Ty::Unsigned,
        },
    )?;
    match &d.first {
        None => Ok(goes(Now::Given(Given::Flow(Flow::Normal)))),
        Some(e) => Ok(value_of(Now::Expr(e), OnValue::Initialise(d.name))),
    }
}

/// Statements in a scope of their own.
pub fn block<'a>(memory: &mut Memory, body: &'a Items<Stmt>) -> Result<Next<'a>, AllocError>
    ensures does { IfOk result (λ n. Works (Now.Block body.entry) memory.old n memory.new) }
    ensures falls { IfOk result (λ n. Falls (Now.Block body.entry) n) }
    ensures fuel { memory.new.fuel ≤ memory.old.fuel }
{
    memory.open_scope()?;
    Ok(flow_of(Now::Stmts(body.as_slice()), OnFlow::CloseScope))
}

/// A `for` in its scope.
pub fn for_loop<'a>(
    memory: &mut Memory,
    first: &'a Boxed<Stmt>,
    turn: Loop<'a>,
) -> Result<Next<'a>, AllocError>
    ensures does { IfOk result (λ n. Works (Now.For first.entry turn.entry) memory.old n memory.new) }
    ensures falls { IfOk result (λ n. Falls (Now.For first.entry turn.entry) n) }
    ensures fuel { memory.new.fuel ≤ memory.old.fuel }
{
    memory.open_scope()?;
    Ok(flow_of(Now::InFor { first, turn }, OnFlow::CloseScope))
}

/// The end of a scope.
pub fn closed<'a>(memory: &mut Memory, flow: Flow) -> Next<'a>
    ensures does { Takes (Frame.OnFlow OnFlow.CloseScope) (Given.Flow flow) memory.old result memory.new }
    ensures falls { FallsFrom (Frame.OnFlow OnFlow.CloseScope) result }
    ensures fuel { memory.new.fuel ≤ memory.old.fuel }
{
    memory.close_scope();
    goes(Now::Given(Given::Flow(flow)))
}

/// One of two statements, where the test is known.
pub fn branch<'a>(yes: &'a Boxed<Stmt>, no: &'a Option<Boxed<Stmt>>, test: Value) -> Next<'a>
    ensures does { Resumes (Frame.OnValue (OnValue.If yes.entry no.entry)) (Given.Value test) result }
    ensures falls { FallsFrom (Frame.OnValue (OnValue.If yes.entry no.entry)) result }
{
    if test.word != 0 {
        return goes(Now::Stmt(yes.get()));
    }
    match no {
        None => goes(Now::Given(Given::Flow(Flow::Normal))),
        Some(no) => goes(Now::Stmt(no.get())),
    }
}

/// A `switch`, whose value is known: its `case` is sought.
pub fn switched<'a>(clauses: &'a [Clause], v: Value) -> Next<'a>
    ensures does { Resumes (Frame.OnValue (OnValue.Switch clauses.entry)) (Given.Value v) result }
    ensures falls { FallsFrom (Frame.OnValue (OnValue.Switch clauses.entry)) result }
{
    flow_of(
        Now::Search {
            word: Some(v.word),
            left: clauses,
            all: clauses,
        },
        OnFlow::EndSwitch,
    )
}

/// The end of a `switch`.
pub fn after_switch<'a>(flow: Flow) -> Next<'a>
    ensures does { Resumes (Frame.OnFlow OnFlow.EndSwitch) (Given.Flow flow) result }
    ensures falls { FallsFrom (Frame.OnFlow OnFlow.EndSwitch) result }
{
    match flow {
        Flow::Normal | Flow::Breaks => goes(Now::Given(Given::Flow(Flow::Normal))),
        Flow::Continues => goes(Now::Given(Given::Flow(Flow::Continues))),
        Flow::Returns(v) => goes(Now::Given(Given::Flow(Flow::Returns(v)))),
    }
}

/// A part, where the one before it ended normally.
pub fn normal_then<'a>(flow: Flow, next: Now<'a>) -> Now<'a>
    ensures { result ≡ if_normal_now flow next.entry }
{
    match flow {
        Flow::Normal => next,
        Flow::Breaks | Flow::Continues | Flow::Returns(_) => Now::Given(Given::Flow(flow)),
    }
}
