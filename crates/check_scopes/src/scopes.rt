//! Scopes of names (ISO/IEC 9899:1999, 6.2.1).

ghost use Rattle.std.specs.Prelude.{◌≡◌, ◌<◌, ◌^◌, reverse, length, IfOk, IfErr, OnOk};
ghost use Rattle.std.specs.Option.{option_copied};
ghost use Rattle.check_rules.specs.declared.names.Kind.TheVariants.{Function};
ghost use Rattle.check_rules.specs.Scopes.{in_force, lookup, innermost_known, is_new, opened, closed, enter_block, enter_file, begun, ended, with_body_of};
ghost use Rattle.c_meaning.specs.Meaning.{source_names};
ghost use Rattle.check_rules.specs.Walk.{is_among, first_walking};
ghost use Rattle.check_rules.specs.declared.error.CheckError.TheVariants.{OutOfMemory};
ghost use Rattle.check_scopes.specs.Lookup.{named_in_file, declared};
ghost use Rattle.check_scopes.specs.Pending.{array_of};

use crate::pending::{Pending, all_completed};
use crate::scope::Scope;
use c_syntax::Ty;
use check_rules::{Binding, CheckError, Decl, Kind, Known};
use sqlite_items::Items;
use std::alloc::Global;
use std::collections::BTreeSet;
use std::marker::Model;

/// How far the walk has come. In each list the newest stands last.
#[derive(Drop)]
pub struct Scopes {
    file: Scope,
    blocks: Items<Scope>,
    decls: Items<Pending>,
    bodies: Items<u32>,
    /// The same names as a set.
    names: BTreeSet<u32>,
}

impl Model for Scopes {
    ghost use Rattle.std.specs.Prelude.{◌≡◌, ℕ, map, reverse};
    ghost use Rattle.std.specs.BTreeSet.{contains};
    ghost use Rattle.std.specs.Ordering.{nat_cmp};
    ghost use Rattle.check_rules.specs.Scopes.{Walking};
    ghost use Rattle.check_rules.specs.Walk.{is_among};
    ghost use Rattle.check_scopes.specs.Pending.{whole};

    ghost Value = { Walking };

    ghost view = { λ s. record { file = s.file; blocks = reverse s.blocks; decls = map whole s.decls; bodies = s.bodies } };

    ghost invariant = { λ s. (n : ℕ) → contains nat_cmp s.names n ≡ is_among n s.bodies };
}

fn function_binding(name: u32, position: u32, ty: Ty, params: Items<Ty>) -> Binding
    ensures { result ≡ record { name = name; known = record { position = position; kind = Function ty params } } }
{
    Binding {
        name,
        known: Known {
            position,
            kind: Kind::Function { ty, params },
        },
    }
}

fn find_block(scopes: &[Scope], name: u32) -> Option<&Known>
    ensures { option_copied result ≡ innermost_known name (reverse scopes.now) }
{
    let mut left = scopes.len();
    while left > 0 {
        left -= 1;
        if let Some(known) = scopes[left].find(name) {
            return Some(known);
        }
    }
    None
}

impl Scopes {
    /// Before the text: `int in_word(void)` and `void out_word(int)` are declared.
    pub fn first(alloc: Global) -> Result<Scopes, CheckError>
        ensures ok { IfOk result (λ s. s ≡ first_walking source_names) }
        ensures err { IfErr result (λ e. e ≡ OutOfMemory) }
    {
        let mut params = Items::new(alloc);
        params.push(Ty::Int)?;
        let mut file = Scope::new(alloc);
        file.add(function_binding(1, 0, Ty::Int, Items::new(alloc)))?;
        file.add(function_binding(2, 1, Ty::Void, params))?;
        let mut decls = Items::new(alloc);
        decls.push(Pending::Whole(Decl::InWord))?;
        decls.push(Pending::Whole(Decl::OutWord))?;
        let mut bodies = Items::new(alloc);
        bodies.push(1)?;
        bodies.push(2)?;
        let mut names = BTreeSet::new(alloc);
        names.insert(1)?;
        names.insert(2)?;
        Ok(Scopes {
            file,
            blocks: Items::new(alloc),
            decls,
            bodies,
            names,
        })
    }

    /// The declarations, each at its position.
    pub fn into_decls(self, alloc: Global) -> Result<Items<Decl>, CheckError>
        ensures ok { IfOk result (λ decls. decls ≡ self.decls) }
        ensures err { IfErr result (λ e. e ≡ OutOfMemory) }
    {
        all_completed(alloc, self.decls)
    }

    /// The declaration in force of a name.
    pub fn known(&self, name: u32) -> Option<&Known>
        ensures { option_copied result ≡ in_force self.now name }
    {
        if let Some(known) = find_block(self.blocks.as_slice(), name) {
            return Some(known);
        }
        self.file.find(name)
    }

    /// Whether the innermost scope doesn't have the name.
    pub fn is_new(&self, name: u32) -> bool
        ensures { result ≡ is_new name self.now.blocks }
    {
        let blocks = self.blocks.as_slice();
        match blocks.last() {
            None => true,
            Some(block) => block.find(name).is_none(),
        }
    }

    /// A new innermost scope.
    pub fn open(&mut self, alloc: Global) -> Result<(), CheckError>
        ensures ok { OnOk result (self.new ≡ opened self.old) }
        ensures err { IfErr result (λ e. e ≡ OutOfMemory) }
    {
        self.blocks.push(Scope::new(alloc))?;
        Ok(())
    }

    /// The end of the innermost scope.
    pub fn close(&mut self)
        ensures { self.new ≡ closed self.old }
    {
        self.blocks.pop();
    }

    /// A variable that comes into force in the innermost scope, and its position.
    pub fn enter(
        &mut self,
        alloc: Global,
        name: u32,
        kind: Kind,
        decl: Decl,
    ) -> Result<u32, CheckError>
        requires room { length self.old.decls < 2 ^ 32 }
        ensures ok { IfOk result (λ p. p ≡ length self.old.decls) }
        ensures entered { OnOk result (self.new ≡ enter_block name kind decl self.old) }
        ensures err { IfErr result (λ e. e ≡ OutOfMemory) }
    {
        let position = self.decls.len() as u32;
        let mut block = match self.blocks.pop() {
            None => Scope::new(alloc),
            Some(block) => block,
        };
        block.add(Binding {
            name,
            known: Known { position, kind },
        })?;
        self.blocks.push(block)?;
        self.decls.push(Pending::Whole(decl))?;
        Ok(position)
    }

    /// The declaration of a name at file scope.
    pub fn known_in_file(&self, name: u32) -> Option<&Known>
        ensures { option_copied result ≡ lookup name self.now.file }
    {
        self.file.find(name)
    }

    /// A name that comes into force at file scope, and its position.
    pub fn enter_file(&mut self, name: u32, kind: Kind, decl: Decl) -> Result<u32, CheckError>
        requires room { length self.old.decls < 2 ^ 32 }
        ensures ok { IfOk result (λ p. p ≡ length self.old.decls) }
        ensures entered { OnOk result (self.new ≡ enter_file name kind decl self.old) }
        ensures err { IfErr result (λ e. e ≡ OutOfMemory) }
    {
        let position = self.decls.len() as u32;
        self.file.add(Binding {
            name,
            known: Known { position, kind },
        })?;
        self.decls.push(Pending::Whole(decl))?;
        Ok(position)
    }

    /// A name of the file that comes into force before it is known what it holds, and its position. What it is comes by
    /// `declare`, before any other declaration.
    pub fn name_in_file(&mut self, name: u32, kind: Kind) -> Result<u32, CheckError>
        requires room { length self.old.decls < 2 ^ 32 }
        ensures ok { IfOk result (λ p. p ≡ length self.old.decls) }
        ensures named { OnOk result (self.new ≡ named_in_file name kind self.old) }
        ensures err { IfErr result (λ e. e ≡ OutOfMemory) }
    {
        let position = self.decls.len() as u32;
        self.file.add(Binding {
            name,
            known: Known { position, kind },
        })?;
        Ok(position)
    }

    /// The declaration of the name that came last.
    pub fn declare(&mut self, decl: Decl) -> Result<(), CheckError>
        ensures ok { OnOk result (self.new ≡ declared decl self.old) }
        ensures err { IfErr result (λ e. e ≡ OutOfMemory) }
    {
        self.decls.push(Pending::Whole(decl))?;
        Ok(())
    }

    /// The declaration of the name that came last, an array of so many elements of which the first hold these words.
    pub fn declare_array(
        &mut self,
        ty: Ty,
        is_const: bool,
        count: usize,
        first: Items<u32>,
    ) -> Result<(), CheckError>
        ensures ok { OnOk result (self.new ≡ declared (array_of ty is_const count first) self.old) }
        ensures err { IfErr result (λ e. e ≡ OutOfMemory) }
    {
        self.decls.push(Pending::Array {
            ty,
            is_const,
            count,
            first,
        })?;
        Ok(())
    }

    /// A function begins, with a scope of its own.
    pub fn begin(&mut self, alloc: Global) -> Result<(), CheckError>
        ensures ok { OnOk result (self.new ≡ begun self.old) }
        ensures err { IfErr result (λ e. e ≡ OutOfMemory) }
    {
        let mut blocks = Items::new(alloc);
        blocks.push(Scope::new(alloc))?;
        self.blocks = blocks;
        Ok(())
    }

    /// It ends.
    pub fn end(&mut self, alloc: Global)
        ensures { self.new ≡ ended self.old }
    {
        self.blocks = Items::new(alloc);
    }

    /// Whether the body of this name has come.
    pub fn has_come(&self, name: u32) -> bool
        ensures { result ≡ is_among name self.now.bodies }
    {
        self.names.contains(&name)
    }

    /// The body of this name has come.
    pub fn comes(&mut self, name: u32) -> Result<(), CheckError>
        ensures ok { OnOk result (self.new ≡ with_body_of name self.old) }
        ensures err { IfErr result (λ e. e ≡ OutOfMemory) }
    {
        self.bodies.push(name)?;
        match self.names.insert(name) {
            Ok(_) => Ok(()),
            Err(_) => {
                self.bodies.pop();
                Err(CheckError::OutOfMemory)
            }
        }
    }
}
