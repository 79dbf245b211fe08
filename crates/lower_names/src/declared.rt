//! The variables of a function: its parameters, and then those that its body declares, in the order of the text.

ghost use Rattle.std.specs.Prelude.{◌≡◌, ◌+◌, ◌≤◌, ◌++◌, ◌∷◌, [], map, flat_map, length, IfOk, OnOk};
ghost use Rattle.c_meaning.specs.Operators.{is_unsigned_type};
ghost use Rattle.c_syntax.specs.Graph.{body_of};
ghost use Rattle.c_syntax.specs.Costs.{function_weight};
ghost use Rattle.lower_rules.specs.Programs.{local_variables, declared, variables_of};
ghost use Rattle.lower_expressions.specs.Names.{variable_of};
ghost use Rattle.lower_names.specs.Parts.{variable_of_param, clause_declares};

use c_syntax::{Clause, Function, Local, Param, Stmt, Ty};
use hard_words::OutOfMemory;
use lower_expressions::Variable;
use sqlite_items::Items;
use std::alloc::Global;
use std::marker::Model;

/// Variables in order; contracts see the list of them.
#[derive(Drop)]
struct Found {
    list: Vec<Variable>,
}

impl Model for Found {
    ghost use Rattle.std.specs.Prelude.{List, map};
    ghost use Rattle.lower_rules.specs.Programs as programs;
    ghost use Rattle.lower_expressions.specs.Names.{variable_of};

    ghost Value = { List programs.Variable };

    ghost view = { λ f. map variable_of f.list.items };
}

impl Found {
    fn new(alloc: Global) -> Found
        ensures { result ≡ [] }
    {
        Found {
            list: Vec::new(alloc),
        }
    }

    fn push(&mut self, name: u32, ty: Ty) -> Result<(), OutOfMemory>
        ensures { OnOk result (self.new ≡ self.old ++ record { name = name; is_unsigned = is_unsigned_type ty } ∷ []) }
    {
        self.list.push(Variable {
            name,
            is_unsigned: ty == Ty::Unsigned,
        })?;
        Ok(())
    }

    fn into_vec(self) -> Vec<Variable>
        ensures { map variable_of result.items ≡ self }
    {
        let Found { list } = self;
        list
    }
}

fn push_param(out: &mut Found, param: &Param) -> Result<(), OutOfMemory>
    ensures { OnOk result (out.new ≡ out.old ++ variable_of_param param.now) }
{
    match param.name {
        None => Ok(()),
        Some(name) => out.push(name, param.ty),
    }
}

fn push_params(out: &mut Found, params: &[Param]) -> Result<(), OutOfMemory>
    ensures { OnOk result (out.new ≡ out.old ++ flat_map variable_of_param params.now) }
{
    for param in params {
        push_param(out, param)?;
    }
    Ok(())
}

fn push_locals(out: &mut Found, locals: &[Local]) -> Result<(), OutOfMemory>
    ensures { OnOk result (out.new ≡ out.old ++ local_variables locals.now) }
{
    for local in locals {
        out.push(local.name, local.ty)?;
    }
    Ok(())
}

#[cycle(declared)]
fn push_clauses(out: &mut Found, all: &[Clause]) -> Result<(), OutOfMemory>
    ensures { OnOk result (out.new ≡ out.old ++ flat_map (λ vs. vs) (map clause_declares all.now)) }
{
    for clause in all {
        push_clause(out, clause)?;
    }
    Ok(())
}

#[cycle(declared)]
fn push_clause(out: &mut Found, clause: &Clause) -> Result<(), OutOfMemory>
    ensures { OnOk result (out.new ≡ out.old ++ clause_declares clause.now) }
{
    push_statements(out, clause.body.as_slice())
}

#[cycle(declared)]
fn push_statements(out: &mut Found, body: &[Stmt]) -> Result<(), OutOfMemory>
    ensures { OnOk result (out.new ≡ out.old ++ flat_map (λ vs. vs) (map declared body.now)) }
{
    for c in body {
        push_statement(out, c)?;
    }
    Ok(())
}

#[cycle(declared)]
fn push_statement(out: &mut Found, c: &Stmt) -> Result<(), OutOfMemory>
    ensures { OnOk result (out.new ≡ out.old ++ declared c.now) }
{
    match c {
        Stmt::Empty
        | Stmt::Value(_)
        | Stmt::Break { .. }
        | Stmt::Continue { .. }
        | Stmt::Return { .. } => Ok(()),
        Stmt::Declare(locals) => push_locals(out, locals.as_slice()),
        Stmt::Block(body) => push_statements(out, body.as_slice()),
        Stmt::If { yes, no, .. } => {
            push_statement(out, yes.get())?;
            match no {
                None => Ok(()),
                Some(no) => push_statement(out, no.get()),
            }
        }
        Stmt::While { body, .. } | Stmt::Do { body, .. } => push_statement(out, body.get()),
        Stmt::For { first, body, .. } => {
            push_statement(out, first.get())?;
            push_statement(out, body.get())
        }
        Stmt::Switch { clauses, .. } => push_clauses(out, clauses.as_slice()),
    }
}

#[tactic(auto, using(crate::proofs::Parts::body_joined))]
fn push_body(out: &mut Found, body: &Option<Items<Stmt>>) -> Result<(), OutOfMemory>
    ensures { OnOk result (out.new ≡ out.old ++ flat_map declared (body_of body.now)) }
{
    match body {
        None => Ok(()),
        Some(body) => push_statements(out, body.as_slice()),
    }
}

/// The variables of a function.
#[tactic(auto, using(crate::proofs::Parts::params_joined, crate::proofs::Counted::length_light))]
pub fn variables(alloc: Global, f: &Function) -> Result<Vec<Variable>, OutOfMemory>
    ensures variables { IfOk result (λ vs. map variable_of vs.items ≡ variables_of f.now) }
    ensures light { IfOk result (λ vs. length vs.items + 1 ≤ function_weight f.now) }
{
    let mut out = Found::new(alloc);
    push_params(&mut out, f.params.as_slice())?;
    push_body(&mut out, &f.body)?;
    Ok(out.into_vec())
}
