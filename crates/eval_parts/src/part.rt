//! What an evaluator does next, and what waits for what it gives.

ghost use Rattle.std.specs.Prelude.{◌≡◌, Some, None};

use c_meaning::{EvalEnd, Flow, Place, Value};
use c_syntax::{BinaryOp, Clause, Expr, Function, Label, Local, Stmt, UnaryOp};
use eval_state::{Active, Scopes};
use sqlite_items::{Boxed, Items};

/// What a part of a program gave.
#[derive(Clone, Copy, Drop)]
pub enum Given {
    Value(Value),
    Place(Place),
    Flow(Flow),
}

/// A loop (ISO/IEC 9899:1999, 6.8.5).
#[derive(Clone, Copy, Drop)]
pub enum Loop<'a> {
    /// `while`, and `do` after its first turn.
    While {
        test: &'a Expr,
        body: &'a Boxed<Stmt>,
    },
    /// `for` after its first clause.
    For {
        test: &'a Option<Expr>,
        next: &'a Option<Expr>,
        body: &'a Boxed<Stmt>,
    },
}

/// The part that begins.
#[derive(Drop)]
pub enum Now<'a> {
    /// An expression for its value.
    Expr(&'a Expr),
    /// An expression for its place.
    Place(&'a Expr),
    /// The value that a place holds.
    Fetch(Place),
    /// The arguments that are left, behind the values of those before them; then the call.
    Args {
        name: u32,
        args: &'a [Expr],
        values: Items<Value>,
    },
    /// A call from the present function.
    Call {
        name: u32,
        args: Items<Value>,
    },
    /// The called function itself, where its caller's frame stands below.
    Enter {
        name: u32,
        args: Items<Value>,
    },
    /// The body of a function, once it is counted as active.
    Function {
        function: &'a Function,
        args: Items<Value>,
    },
    /// A statement.
    Stmt(&'a Stmt),
    /// Statements in order.
    Stmts(&'a [Stmt]),
    /// A declarator.
    Local(&'a Local),
    /// Declarators in order.
    Locals(&'a [Local]),
    /// The statements of these clauses in order.
    Clauses(&'a [Clause]),
    /// The statements from the clause with a label on, sought in the clauses that are left: where none has that `case`,
    /// from the clause of them all with `default` on.
    Search {
        /// The word of the `case`, none for `default`.
        word: Option<u32>,
        /// The clauses that are left.
        left: &'a [Clause],
        /// All clauses of the `switch`.
        all: &'a [Clause],
    },
    /// The same, sought in the labels that are left of a clause and then in the clauses behind it.
    Labels {
        /// The word of the `case`, none for `default`.
        word: Option<u32>,
        /// The labels that are left.
        labels: &'a [Label],
        /// The clauses from theirs on.
        here: &'a [Clause],
        /// The clauses behind theirs.
        left: &'a [Clause],
        /// All clauses of the `switch`.
        all: &'a [Clause],
    },
    /// Statements in a scope of their own.
    Block(&'a Items<Stmt>),
    /// A `for` with its first clause.
    For {
        first: &'a Boxed<Stmt>,
        turn: Loop<'a>,
    },
    /// The same inside its scope.
    InFor {
        first: &'a Boxed<Stmt>,
        turn: Loop<'a>,
    },
    /// A loop whose body is done once before the first test.
    Do {
        test: &'a Expr,
        body: &'a Boxed<Stmt>,
    },
    /// A loop, from its first test on.
    Loop(Loop<'a>),
    /// The turns of a loop, at most so many.
    Turns {
        left: u64,
        turn: Loop<'a>,
    },
    /// What waits on top of the stack takes this.
    Given(Given),
    /// Nothing: the run has ended.
    Over(EvalEnd),
}

/// What takes a value.
#[derive(Drop)]
pub enum OnValue<'a> {
    /// It is the index of an element of that array.
    IndexOf(u32),
    /// It is the next argument.
    Args {
        name: u32,
        others: &'a [Expr],
        values: Items<Value>,
    },
    /// It is the operand.
    Unary(UnaryOp),
    /// It is the left operand; the right one follows.
    Right(BinaryOp, &'a Expr),
    /// It is the right operand.
    Operate(BinaryOp, Value),
    /// It is the left operand of `&&`, else of `||`.
    Logic(bool, &'a Expr),
    /// It is the right operand of `&&` or `||`.
    Tested,
    /// It chooses one of two expressions.
    Choose(&'a Expr, &'a Expr),
    /// It is converted to a type.
    Convert(bool),
    /// It is stored.
    Store(Place),
    /// It is the right operand of a compound assignment to a place that held this value.
    StoreBy(BinaryOp, Place, Value),
    /// It is dropped, and this expression follows.
    Second(&'a Expr),
    /// It is what a call of a recursive function gave, before which so many were active.
    EndActive(Active),
    /// It is dropped.
    Discard,
    /// It initialises that variable.
    Initialise(u32),
    /// It chooses one of two statements.
    If(&'a Boxed<Stmt>, &'a Option<Boxed<Stmt>>),
    /// It is the test of a loop; at most so many turns follow this one.
    Test {
        left: u64,
        turn: Loop<'a>,
    },
    /// It is dropped after a turn of a loop.
    Next {
        left: u64,
        turn: Loop<'a>,
    },
    /// It chooses among these clauses.
    Switch(&'a [Clause]),
    /// The function returns it.
    Return,
}

/// What takes a place.
#[derive(Drop)]
pub enum OnPlace<'a> {
    /// The value that it holds is wanted.
    Fetch,
    /// This is assigned to it.
    Assign(Option<BinaryOp>, &'a Expr),
    /// It is counted up or down; whether the new value is given, else the old one.
    Bump { up: bool, before: bool },
}

/// What takes a flow.
#[derive(Drop)]
pub enum OnFlow<'a> {
    /// These statements follow.
    Stmts(&'a [Stmt]),
    /// These declarators follow.
    Locals(&'a [Local]),
    /// The statements of these clauses follow.
    Clauses(&'a [Clause]),
    /// The innermost scope ends.
    CloseScope,
    /// This loop follows.
    Loop(Loop<'a>),
    /// It is how the first turn of a `do` ended.
    AfterFirst {
        test: &'a Expr,
        body: &'a Boxed<Stmt>,
    },
    /// It is how a turn of a loop ended; at most so many follow.
    AfterTurn {
        left: u64,
        turn: Loop<'a>,
    },
    /// The `switch` ends.
    EndSwitch,
    /// The call ends: the caller's variables are in force again, and the value has this type.
    Leave {
        scopes: Scopes,
        is_unsigned: bool,
    },
}

/// What waits for what a part gives.
#[derive(Drop)]
pub enum Frame<'a> {
    OnValue(OnValue<'a>),
    OnPlace(OnPlace<'a>),
    OnFlow(OnFlow<'a>),
}

/// What stands on the stack.
#[derive(Drop)]
pub enum Layer<'a> {
    /// A frame of the present function.
    Frame(Frame<'a>),
    /// Here the caller goes on, in which so many more calls may be open.
    Caller(u64),
}

/// What comes next: a part, and what waits for it, if anything.
#[derive(Drop)]
pub struct Next<'a> {
    pub now: Now<'a>,
    pub waiting: Option<Frame<'a>>,
}

/// A part alone.
pub fn goes<'a>(now: Now<'a>) -> Next<'a>
    ensures { result ≡ record { now = now.entry; waiting = None } }
{
    Next { now, waiting: None }
}

/// A part whose value is taken.
pub fn value_of<'a>(now: Now<'a>, f: OnValue<'a>) -> Next<'a>
    ensures { result ≡ record { now = now.entry; waiting = Some (Frame.OnValue f.entry) } }
{
    Next {
        now,
        waiting: Some(Frame::OnValue(f)),
    }
}

/// A part whose place is taken.
pub fn place_of<'a>(now: Now<'a>, f: OnPlace<'a>) -> Next<'a>
    ensures { result ≡ record { now = now.entry; waiting = Some (Frame.OnPlace f.entry) } }
{
    Next {
        now,
        waiting: Some(Frame::OnPlace(f)),
    }
}

/// A part whose flow is taken.
pub fn flow_of<'a>(now: Now<'a>, f: OnFlow<'a>) -> Next<'a>
    ensures { result ≡ record { now = now.entry; waiting = Some (Frame.OnFlow f.entry) } }
{
    Next {
        now,
        waiting: Some(Frame::OnFlow(f)),
    }
}
