//! Steps of calls.

ghost use Rattle.std.specs.Prelude.{◌≡◌, ◌+◌, ◌≤◌, IfOk};
ghost use Rattle.eval_parts.specs.Parts.{Works, Takes, Does, DoesIn, counting, input_word};
ghost use Rattle.eval_parts.specs.Work.{Falls, FallsFrom, Lighter, function_work};
ghost use Rattle.eval_parts.specs.Steps.{calling, FallsFromCall};

use c_meaning::{EvalEnd, Flow, Value};
use c_syntax::{Function, Ty};
use eval_parts::{Code, Frame, Given, Next, Now, OnFlow, OnValue, flow_of, goes, value_of};
use eval_state::{Active, Memory, Scopes};
use eval_values::converted;
use sqlite_items::Items;
use std::alloc::{AllocError, Global};

/// The body of a function.
pub(crate) fn function<'a>(
    alloc: Global,
    memory: &mut Memory,
    function: &'a Function,
    args: Items<Value>,
) -> Result<Next<'a>, AllocError>
    ensures does { IfOk result (λ n. Works (Now.Function function.entry args) memory.old n memory.new) }
    ensures falls { IfOk result (λ n. Falls (Now.Function function.entry args) n) }
    ensures fuel { memory.new.fuel ≤ memory.old.fuel }
{
    if let Err(end) = memory.spend() {
        return Ok(goes(Now::Over(end)));
    }
    let scopes = memory.open_call(alloc, function.params.as_slice(), args.as_slice())?;
    let leave = OnFlow::Leave {
        scopes,
        is_unsigned: function.ty == Ty::Unsigned,
    };
    match &function.body {
        None => Ok(flow_of(Now::Given(Given::Flow(Flow::Normal)), leave)),
        Some(body) => Ok(flow_of(Now::Stmts(body.as_slice()), leave)),
    }
}

/// The end of a call.
pub(crate) fn left<'a>(
    memory: &mut Memory,
    scopes: Scopes,
    is_unsigned: bool,
    flow: Flow,
) -> Next<'a>
    ensures does { Takes (Frame.OnFlow (OnFlow.Leave scopes is_unsigned)) (Given.Flow flow) memory.old result memory.new }
    ensures falls { FallsFrom (Frame.OnFlow (OnFlow.Leave scopes is_unsigned)) result }
    ensures fuel { memory.new.fuel ≤ memory.old.fuel }
{
    memory.close_call(scopes);
    match flow {
        Flow::Returns(v) => goes(Now::Given(Given::Value(converted(is_unsigned, v)))),
        Flow::Normal | Flow::Breaks | Flow::Continues => {
            goes(Now::Given(Given::Value(Value {
                word: 0,
                is_unsigned,
            })))
        }
    }
}

/// A call of a recursive function is no longer active.
pub(crate) fn no_longer_active<'a>(memory: &mut Memory, before: Active, v: Value) -> Next<'a>
    ensures does { Takes (Frame.OnValue (OnValue.EndActive before)) (Given.Value v) memory.old result memory.new }
    ensures falls { FallsFrom (Frame.OnValue (OnValue.EndActive before)) result }
    ensures fuel { memory.new.fuel ≤ memory.old.fuel }
{
    memory.end_active(before);
    goes(Now::Given(Given::Value(v)))
}

fn counted<'a>(
    memory: &mut Memory,
    recursive: bool,
    f: &'a Function,
    args: Items<Value>,
) -> Next<'a>
    ensures does { Does (counting recursive f.entry.now args) memory.old result memory.new }
    ensures falls { Lighter (λ most call items. function_work most call f.entry.now + 4) result }
    ensures fuel { memory.new.fuel ≤ memory.old.fuel }
{
    if !recursive {
        return goes(Now::Function { function: f, args });
    }
    match memory.begin_active() {
        Ok(before) => value_of(
            Now::Function { function: f, args },
            OnValue::EndActive(before),
        ),
        Err(end) => goes(Now::Over(end)),
    }
}

/// A call of `in_word`.
pub fn next_word<'a>(memory: &mut Memory) -> Next<'a>
    ensures does { Does input_word memory.old result memory.new }
    ensures falls { Lighter (λ most call items. 2) result }
    ensures fuel { memory.new.fuel ≤ memory.old.fuel }
{
    match memory.take_in() {
        Ok(word) => goes(Now::Given(Given::Value(Value {
            word,
            is_unsigned: false,
        }))),
        Err(end) => goes(Now::Over(end)),
    }
}

/// A call of a function that isn't `in_word` or `out_word`.
pub fn called<'a>(code: &Code<'a>, memory: &mut Memory, name: u32, args: Items<Value>) -> Next<'a>
    ensures does { DoesIn code.now (calling code.now name args) memory.old result memory.new }
    ensures falls { FallsFromCall code.now result }
    ensures fuel { memory.new.fuel ≤ memory.old.fuel }
{
    match code.function(name) {
        None => goes(Now::Over(EvalEnd::Starved)),
        Some(f) => counted(memory, code.is_recursive(name), f, args),
    }
}
