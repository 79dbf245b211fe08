//! A program without fault in which each name is the position of its declaration.

ghost use Rattle.std.specs.Prelude.{◌≡◌};
ghost use Rattle.check_rules.specs.Limits.{Resolved};
ghost use Rattle.check_rules.specs.Resolution.{IsChecked};

use crate::decl::Decl;
use c_syntax::Program;
use sqlite_items::Items;
use std::marker::Model;

/// A program without fault, in which each name is the position of its declaration.
#[derive(Drop)]
pub struct Checked {
    program: Program,
    decls: Items<Decl>,
    main: u32,
}

impl Model for Checked {
    ghost use Rattle.check_rules.specs.Limits.{Resolved};
    ghost use Rattle.check_rules.specs.Resolution.{IsChecked};
    ghost use Rattle.c_syntax.specs.contracts.tree.Expr as e;
    ghost use Rattle.c_syntax.specs.contracts.tree.Stmt as s;
    ghost use Rattle.c_syntax.specs.contracts.tree.Clause as c;
    ghost use Rattle.std.specs.Coded.{codes};

    ghost Value = { Resolved };

    ghost coded = { Prim.hlevel (codes, e.the_row.coded, s.the_row.coded, c.the_row.coded) };

    ghost view = { λ c. record { program = c.program; decls = c.decls; main = c.main } };

    ghost invariant = { λ c. IsChecked (record { program = c.program; decls = c.decls; main = c.main }) };
}

impl Checked {
    /// A program in which each name is the position of its declaration, with the declarations and the position of `main`.
    pub fn new(program: Program, decls: Items<Decl>, main: u32) -> Checked
        requires { IsChecked (record { program = program; decls = decls; main = main }) }
        ensures { result ≡ record { program = program; decls = decls; main = main } }
    {
        Checked {
            program,
            decls,
            main,
        }
    }

    /// The program, whose names are positions.
    pub fn program(&self) -> &Program
        ensures program { result.now ≡ self.now.program }
        ensures checked { IsChecked self.now }
    {
        &self.program
    }

    /// The declarations, each at its position.
    pub fn decls(&self) -> &[Decl]
        ensures decls { result.now ≡ self.now.decls }
        ensures checked { IsChecked self.now }
    {
        self.decls.as_slice()
    }

    /// The position of `main`.
    pub fn main(&self) -> u32
        ensures main { result ≡ self.now.main }
        ensures checked { IsChecked self.now }
    {
        self.main
    }
}
