//! Whether a body returns a value.

ghost use Rattle.std.specs.Prelude.{◌≡◌, map, Bool};
ghost use Rattle.lower_rules.specs.Programs.{some_of, returns_value};
ghost use Rattle.lower_names.specs.Parts.{clause_returns};

use c_syntax::{Clause, Stmt};

/// Whether some `return` of a body has a value.
#[cycle(returns)]
pub fn returns_value(body: &[Stmt]) -> bool
    ensures { result ≡ some_of (map returns_value body.now) }
{
    for c in body {
        if statement_returns(c) {
            return true;
        }
    }
    false
}

#[cycle(returns)]
fn clause_returns(clause: &Clause) -> bool
    ensures { result ≡ clause_returns clause.now }
{
    returns_value(clause.body.as_slice())
}

#[cycle(returns)]
fn clauses_return(all: &[Clause]) -> bool
    ensures { result ≡ some_of (map clause_returns all.now) }
{
    for clause in all {
        if clause_returns(clause) {
            return true;
        }
    }
    false
}

#[cycle(returns)]
fn statement_returns(c: &Stmt) -> bool
    ensures { result ≡ returns_value c.now }
{
    match c {
        Stmt::Empty
        | Stmt::Value(_)
        | Stmt::Declare(_)
        | Stmt::Break { .. }
        | Stmt::Continue { .. } => false,
        Stmt::Block(body) => returns_value(body.as_slice()),
        Stmt::If { yes, no, .. } => {
            let no = match no {
                None => false,
                Some(no) => statement_returns(no.get()),
            };
            let yes = statement_returns(yes.get());
            yes || no
        }
        Stmt::While { body, .. } | Stmt::Do { body, .. } => statement_returns(body.get()),
        Stmt::For { first, body, .. } => {
            let first = statement_returns(first.get());
            let body = statement_returns(body.get());
            first || body
        }
        Stmt::Switch { clauses, .. } => clauses_return(clauses.as_slice()),
        Stmt::Return { value, .. } => match value {
            None => false,
            Some(_) => true,
        },
    }
}
