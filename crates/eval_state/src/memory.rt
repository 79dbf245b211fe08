//! The state of a run, but for its output, which is handed out word by word.

ghost use Rattle.std.specs.Prelude.{◌≡◌, ◌≤◌, IfOk, reverse};
ghost use Rattle.c_meaning.specs.Run.{Gives, write, check_index, enter, open_scope, close_scope, open_call, close_call, begin_active, end_active, spend, take_in, designated, object_type};
ghost use Rattle.c_meaning.specs.Meaning.{fetch, store, bound, first_state};
ghost use Rattle.eval_state.specs.State.{state, settled, number_of};

use crate::active::Active;
use crate::files::Files;
use crate::params::params_in;
use crate::scopes::Scopes;
use c_meaning::{EvalEnd, Place, Value};
use c_syntax::{Param, TopItem};
use sqlite_items::Items;
use std::alloc::{AllocError, Global};
use std::marker::Model;
use std::mem;

/// The variables, the input that is left with its next word last, the fuel, and how many calls of recursive functions
/// are active.
#[derive(Drop)]
pub struct Memory {
    files: Files,
    scopes: Scopes,
    input: Vec<u32>,
    fuel: u64,
    active: Active,
}

impl Model for Memory {
    ghost use Rattle.std.specs.Prelude.{reverse};
    ghost use Rattle.eval_state.specs.State.{Held};

    ghost Value = { Held };

    ghost view = { λ m. record { globals = m.files; scopes = m.scopes; input = reverse m.input.items; fuel = m.fuel; active = m.active.count } };
}

impl Memory {
    /// The state in which `main` is called.
    pub fn start(
        alloc: Global,
        items: &[TopItem],
        feed: Vec<u32>,
        turns: u64,
    ) -> Result<Memory, AllocError>
        ensures state { IfOk result (λ m. state m ≡ first_state items.now feed.items turns) }
        ensures fuel { IfOk result (λ m. m.fuel ≡ turns) }
    {
        let files = Files::start(alloc, items)?;
        Ok(Memory {
            files,
            scopes: Scopes::new(alloc),
            input: turned(feed),
            fuel: turns,
            active: Active { count: 0 },
        })
    }

    /// The fuel that is left.
    pub fn fuel(&self) -> u64
        ensures { result ≡ self.now.fuel }
    {
        self.fuel
    }

    /// Spends one.
    pub fn spend(&mut self) -> Result<(), EvalEnd>
        ensures does { spend (state self.old) ≡ settled result (state self.new) }
        ensures fuel { self.new.fuel ≤ self.old.fuel }
    {
        if self.fuel == 0 {
            return Err(EvalEnd::Going);
        }
        self.fuel -= 1;
        Ok(())
    }

    /// The next word of the input.
    pub fn take_in(&mut self) -> Result<u32, EvalEnd>
        ensures does { take_in (state self.old) ≡ settled result (state self.new) }
        ensures fuel { self.new.fuel ≤ self.old.fuel }
    {
        match self.input.pop() {
            None => Err(EvalEnd::Starved),
            Some(word) => Ok(word),
        }
    }

    /// Counts a call of a recursive function as active, and gives how many were before.
    pub fn begin_active(&mut self) -> Result<Active, EvalEnd>
        ensures does { begin_active (state self.old) ≡ settled (number_of result) (state self.new) }
        ensures fuel { self.new.fuel ≤ self.old.fuel }
    {
        let before = self.active;
        if before.count == 256 {
            return Err(EvalEnd::Trapped(9));
        }
        self.active = Active {
            count: before.count + 1,
        };
        Ok(before)
    }

    /// As many are active as before it.
    pub fn end_active(&mut self, before: Active)
        ensures does { end_active before.count (state self.old) ≡ Gives tt (state self.new) }
        ensures fuel { self.new.fuel ≤ self.old.fuel }
    {
        self.active = before;
    }

    /// The value that a place holds.
    pub fn fetch(&self, place: Place) -> Result<Value, EvalEnd>
        ensures { fetch place (state self.now) ≡ settled result (state self.now) }
    {
        match place {
            Place::Variable(name) => match self.scopes.find(name) {
                Some(v) => Ok(v),
                None => self.files.scalar(name),
            },
            Place::Element(name, index) => match self.scopes.find(name) {
                Some(_) => Err(EvalEnd::Starved),
                None => self.files.element(name, index),
            },
        }
    }

    /// Stores a word.
    pub fn store(&mut self, place: Place, word: u32) -> Result<Value, EvalEnd>
        ensures does { store place word (state self.old) ≡ settled result (state self.new) }
        ensures fuel { self.new.fuel ≤ self.old.fuel }
    {
        let old = self.fetch(place)?;
        match place {
            Place::Variable(name) => self.write(name, word),
            Place::Element(name, index) => self.files.put_element(name, index, word),
        }
        Ok(Value {
            word,
            is_unsigned: old.is_unsigned,
        })
    }

    /// Stores a word into a variable.
    pub fn write(&mut self, name: u32, word: u32)
        ensures does { write name word (state self.old) ≡ Gives tt (state self.new) }
        ensures fuel { self.new.fuel ≤ self.old.fuel }
    {
        if !self.scopes.put(name, word) {
            self.files.put(name, word);
        }
    }

    /// Whether there is an element of that index.
    pub fn check_index(&self, name: u32, index: u32) -> Result<(), EvalEnd>
        ensures { check_index name index (state self.now) ≡ settled result (state self.now) }
    {
        match self.scopes.find(name) {
            Some(_) => Err(EvalEnd::Starved),
            None => self.files.check_index(name, index),
        }
    }

    /// Whether what a name designates is unsigned.
    pub fn is_unsigned(&self, name: u32) -> bool
        ensures { result ≡ object_type (designated name (state self.now)) }
    {
        match self.scopes.find(name) {
            Some(v) => v.is_unsigned,
            None => self.files.is_unsigned(name),
        }
    }

    /// A new variable in the innermost scope.
    pub fn enter(&mut self, name: u32, value: Value) -> Result<(), AllocError>
        ensures does { IfOk result (λ u. enter name value (state self.old) ≡ Gives tt (state self.new)) }
        ensures fuel { self.new.fuel ≤ self.old.fuel }
    {
        self.scopes.enter(name, value)
    }

    /// A new innermost scope.
    pub fn open_scope(&mut self) -> Result<(), AllocError>
        ensures does { IfOk result (λ u. open_scope (state self.old) ≡ Gives tt (state self.new)) }
        ensures fuel { self.new.fuel ≤ self.old.fuel }
    {
        self.scopes.open()
    }

    /// The end of the innermost scope.
    pub fn close_scope(&mut self)
        ensures does { close_scope (state self.old) ≡ Gives tt (state self.new) }
        ensures fuel { self.new.fuel ≤ self.old.fuel }
    {
        self.scopes.close();
    }

    /// A call begins with its parameters; the caller's variables are what it gives.
    pub fn open_call(
        &mut self,
        alloc: Global,
        params: &[Param],
        args: &[Value],
    ) -> Result<Scopes, AllocError>
        ensures does { IfOk result (λ scopes. open_call (bound params.now args.now) (state self.old) ≡ Gives scopes (state self.new)) }
        ensures fuel { self.new.fuel ≤ self.old.fuel }
    {
        let scopes = params_in(alloc, params, args)?;
        Ok(mem::replace(&mut self.scopes, scopes))
    }

    /// A call ends, and the caller's variables are in force again.
    pub fn close_call(&mut self, scopes: Scopes)
        ensures does { close_call scopes (state self.old) ≡ Gives tt (state self.new) }
        ensures fuel { self.new.fuel ≤ self.old.fuel }
    {
        self.scopes = scopes;
    }
}

fn turned(feed: Vec<u32>) -> Vec<u32>
    ensures { result.items ≡ reverse feed.items }
{
    let mut input = feed;
    input.reverse();
    input
}
