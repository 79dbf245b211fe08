//! The variables at file scope.

ghost use Rattle.std.specs.Prelude.{◌≡◌, ◌++◌, ◌∷◌, [], IfOk, map, option_map, slice_index};
ghost use Rattle.c_meaning.specs.Run.{find_global, change_global, put_scalar, put_element, object_type};
ghost use Rattle.c_meaning.specs.Meaning.{constant, first_or_zero, padded, initial, global, globals};
ghost use Rattle.c_meaning.specs.Operators.{is_unsigned_type};
ghost use Rattle.eval_state.specs.Files.{ChangesAt, HasFirst, object_of, with_word, with_element};
ghost use Rattle.eval_state.specs.State.{scalar_of, element_of, index_of};

use crate::table;
use c_constants::constant_word;
use c_meaning::{EvalEnd, Value};
use c_syntax::{Expr, GlobalVar, Shape, TopItem, Ty};
use sqlite_items::Items;
use std::alloc::{AllocError, Global};
use std::marker::Model;

/// What a name of the file designates.
#[derive(Drop)]
pub(crate) enum Object {
    /// A variable of one word.
    Scalar(Value),
    /// An array.
    Array {
        /// Whether its elements are unsigned.
        is_unsigned: bool,
        /// The elements.
        words: Items<u32>,
    },
}

/// A variable at file scope.
#[derive(Drop)]
pub(crate) struct FileVariable {
    /// Its name.
    name: u32,
    /// What it is.
    object: Object,
}

/// The variables at file scope.
#[derive(Drop)]
pub struct Files {
    /// In the order of the program.
    variables: Vec<FileVariable>,
    /// One more than the index of the first variable of each name, 0 where there is none.
    table: Vec<usize>,
}

impl Model for Files {
    ghost use Rattle.std.specs.Prelude.{List, map};
    ghost use Rattle.c_meaning.specs.Run.{Global};

    ghost Value = { List Global };

    ghost use Rattle.eval_state.specs.Files.{global_of, HasFirst};

    ghost view = { λ f. map global_of f.variables.items };

    ghost invariant = { λ f. HasFirst f.table.items f.variables.items };
}

impl Files {
    /// The variables of a program as they are before the run.
    pub fn start(alloc: Global, items: &[TopItem]) -> Result<Files, AllocError>
        ensures { IfOk result (λ f. f ≡ globals items.now) }
    {
        let mut files = Files {
            variables: Vec::new(alloc),
            table: Vec::new(alloc),
        };
        for item in items {
            match item {
                TopItem::Globals(variables) => files.add_all(alloc, variables.as_slice())?,
                TopItem::Function(_) => {}
            }
        }
        Ok(files)
    }

    fn add_all(&mut self, alloc: Global, variables: &[GlobalVar]) -> Result<(), AllocError>
        ensures { IfOk result (λ u. self.new ≡ self.old ++ map global variables.now) }
    {
        for variable in variables {
            self.add(alloc, variable)?;
        }
        Ok(())
    }

    fn add(&mut self, alloc: Global, variable: &GlobalVar) -> Result<(), AllocError>
        ensures { IfOk result (λ u. self.new ≡ self.old ++ global variable.now ∷ []) }
    {
        let object = first_object(alloc, variable)?;
        push(&mut self.variables, &mut self.table, variable.name, object)
    }

    /// The value of a variable of one word.
    pub fn scalar(&self, name: u32) -> Result<Value, EvalEnd>
        ensures { result ≡ scalar_of (find_global name self.now) }
    {
        match self.object(name) {
            Some(Object::Scalar(v)) => Ok(*v),
            Some(Object::Array { .. }) | None => Err(EvalEnd::Starved),
        }
    }

    /// The value of an element.
    pub fn element(&self, name: u32, index: u32) -> Result<Value, EvalEnd>
        ensures { result ≡ element_of index (find_global name self.now) }
    {
        match self.object(name) {
            Some(Object::Array { is_unsigned, words }) => Ok(Value {
                word: word_at(words.as_slice(), index),
                is_unsigned: *is_unsigned,
            }),
            Some(Object::Scalar(_)) | None => Err(EvalEnd::Starved),
        }
    }

    /// Whether an array has an element of that index.
    pub fn check_index(&self, name: u32, index: u32) -> Result<(), EvalEnd>
        ensures { result ≡ index_of index (find_global name self.now) }
    {
        match self.object(name) {
            Some(Object::Array { words, .. }) => {
                if (index as usize) < words.len() {
                    Ok(())
                } else {
                    Err(EvalEnd::Trapped(8))
                }
            }
            Some(Object::Scalar(_)) | None => Err(EvalEnd::Starved),
        }
    }

    /// Whether a variable, or an array's elements, are unsigned.
    pub fn is_unsigned(&self, name: u32) -> bool
        ensures { result ≡ object_type (find_global name self.now) }
    {
        match self.object(name) {
            Some(Object::Scalar(v)) => v.is_unsigned,
            Some(Object::Array { is_unsigned, .. }) => *is_unsigned,
            None => false,
        }
    }

    /// Stores a word into a variable of one word.
    pub fn put(&mut self, name: u32, word: u32)
        ensures { self.new ≡ change_global name (put_scalar word) self.old }
    {
        let first = table::at(self.table.as_slice(), name as usize);
        if first > 0 {
            put_word(&mut self.variables, first - 1, word);
        }
    }

    /// Stores a word into an element.
    pub fn put_element(&mut self, name: u32, index: u32, word: u32)
        ensures { self.new ≡ change_global name (put_element index word) self.old }
    {
        let first = table::at(self.table.as_slice(), name as usize);
        if first > 0 {
            put_at(&mut self.variables, first - 1, index as usize, word);
        }
    }

    fn object(&self, name: u32) -> Option<&Object>
        ensures { option_map (λ o. object_of o.now) result ≡ find_global name self.now }
    {
        let first = table::at(self.table.as_slice(), name as usize);
        if first == 0 {
            return None;
        }
        match sqlite_items::at(self.variables.as_slice(), first - 1) {
            None => None,
            Some(variable) => Some(&variable.object),
        }
    }
}

fn word_at(words: &[u32], index: u32) -> u32
    ensures { result ≡ slice_index words.now index }
{
    match words.get(index as usize) {
        None => 0,
        Some(word) => *word,
    }
}

fn set_word(object: &mut Object, word: u32)
    ensures { object.new ≡ with_word word object.old }
{
    match object {
        Object::Scalar(v) => v.word = word,
        Object::Array { .. } => {}
    }
}

fn set_element(object: &mut Object, index: usize, word: u32)
    ensures { object.new ≡ with_element index word object.old }
{
    match object {
        Object::Scalar(_) => {}
        Object::Array { words, .. } => {
            if index < words.len() {
                words.set(index, word);
            }
        }
    }
}

fn put_word(variables: &mut Vec<FileVariable>, at: usize, word: u32)
    ensures { ChangesAt (with_word word) at variables.old.items variables.new.items }
{
    if let Some(variable) = variables.get_mut(at) {
        set_word(&mut variable.object, word);
    }
}

fn put_at(variables: &mut Vec<FileVariable>, at: usize, index: usize, word: u32)
    ensures { ChangesAt (with_element index word) at variables.old.items variables.new.items }
{
    if let Some(variable) = variables.get_mut(at) {
        set_element(&mut variable.object, index, word);
    }
}

fn push(
    variables: &mut Vec<FileVariable>,
    table: &mut Vec<usize>,
    name: u32,
    object: Object,
) -> Result<(), AllocError>
    requires { HasFirst table.old.items variables.old.items }
    ensures first { HasFirst table.new.items variables.new.items }
    ensures pushed { IfOk result (λ u. variables.new.items ≡ variables.old.items ++ record { name = name; object = object } ∷ []) }
{
    table::grow(table, name as usize)?;
    let first = variables.len() + 1;
    variables.push(FileVariable { name, object })?;
    table::note(table, name as usize, first);
    Ok(())
}

fn first_object(alloc: Global, variable: &GlobalVar) -> Result<Object, AllocError>
    ensures { IfOk result (λ o. object_of o ≡ initial variable.now.shape (is_unsigned_type variable.now.ty) (map constant variable.now.first)) }
{
    let is_unsigned = variable.ty == Ty::Unsigned;
    match &variable.shape {
        Shape::Scalar => Ok(Object::Scalar(Value {
            word: first_word(variable.first.as_slice()),
            is_unsigned,
        })),
        Shape::Array { length } => {
            let words = constants(alloc, variable.first.as_slice())?;
            let count = match length {
                None => words.len(),
                Some(e) => constant_word(e) as usize,
            };
            let words = padded(words, count)?;
            Ok(Object::Array {
                is_unsigned,
                words: Items::from_vec(words),
            })
        }
    }
}

fn first_word(list: &[Expr]) -> u32
    ensures { result ≡ first_or_zero (map constant list.now) }
{
    match list.split_first() {
        None => 0,
        Some((e, _)) => constant_word(e),
    }
}

fn constants(alloc: Global, list: &[Expr]) -> Result<Vec<u32>, AllocError>
    ensures { IfOk result (λ words. words.items ≡ map constant list.now) }
{
    let mut words = Vec::new(alloc);
    for e in list {
        words.push(constant_word(e))?;
    }
    Ok(words)
}

fn padded(words: Vec<u32>, count: usize) -> Result<Vec<u32>, AllocError>
    ensures { IfOk result (λ all. all.items ≡ padded count words.items) }
{
    let mut words = words;
    words.truncate(count);
    while words.len() < count {
        words.push(0)?;
    }
    Ok(words)
}
