//! The variables at file scope: what each is, and its words at the start.

ghost use Rattle.std.specs.Prelude.{◌≡◌, ◌++◌, ◌∷◌, [], map, flat_map, length, IfOk, OnOk};
ghost use Rattle.c_meaning.specs.Operators.{is_unsigned_type};
ghost use Rattle.c_meaning.specs.Meaning as meaning;
ghost use Rattle.c_meaning.specs.Meaning.{constant, first_or_zero, globals};
ghost use Rattle.lower_rules.specs.Programs as programs;
ghost use Rattle.lower_rules.specs.Programs.{object_words};
ghost use Rattle.lower_expressions.specs.Names.{shape_of};
ghost use Rattle.lower_names.specs.Files.{item_shapes, words_of, item_words};

use c_constants::constant_word;
use c_syntax::{Expr, GlobalVar, TopItem, Ty};
use hard_words::{OutOfMemory, Sequence, Words};
use lower_expressions::Shape;
use std::alloc::Global;
use std::marker::Model;

/// Variables at file scope in order; contracts see the list of them.
#[derive(Drop)]
struct Seen {
    list: Vec<Shape>,
}

impl Model for Seen {
    ghost use Rattle.std.specs.Prelude.{List, map};
    ghost use Rattle.lower_rules.specs.Bindings.{GlobalShape};
    ghost use Rattle.lower_expressions.specs.Names.{shape_of};

    ghost Value = { List GlobalShape };

    ghost view = { λ f. map shape_of f.list.items };
}

impl Seen {
    fn new(alloc: Global) -> Seen
        ensures { result ≡ [] }
    {
        Seen {
            list: Vec::new(alloc),
        }
    }

    fn push(&mut self, shape: Shape) -> Result<(), OutOfMemory>
        ensures { OnOk result (self.new ≡ self.old ++ shape_of shape ∷ []) }
    {
        self.list.push(shape)?;
        Ok(())
    }

    fn into_vec(self) -> Vec<Shape>
        ensures { map shape_of result.items ≡ self }
    {
        let Seen { list } = self;
        list
    }
}

/// How many elements an array has.
fn array_length(length: &Option<Expr>, first: &[Expr]) -> usize
    ensures { result ≡ meaning.array_length length.now (map constant first.now) }
{
    match length {
        None => first.len(),
        Some(e) => constant_word(e) as usize,
    }
}

/// What a variable at file scope is.
#[tactic(auto, using(crate::proofs::Joined::padded_length))]
fn shape(g: &GlobalVar) -> Shape
    ensures { shape_of result ≡ programs.shape_of (meaning.global g.now) }
{
    let is_unsigned = g.ty == Ty::Unsigned;
    match &g.shape {
        c_syntax::Shape::Scalar => Shape {
            name: g.name,
            is_array: false,
            is_unsigned,
            words: 1,
        },
        c_syntax::Shape::Array { length } => Shape {
            name: g.name,
            is_array: true,
            is_unsigned,
            words: array_length(length, g.first.as_slice()),
        },
    }
}

fn push_shapes(out: &mut Seen, variables: &[GlobalVar]) -> Result<(), OutOfMemory>
    ensures { OnOk result (out.new ≡ out.old ++ map programs.shape_of (map meaning.global variables.now)) }
{
    for g in variables {
        out.push(shape(g))?;
    }
    Ok(())
}

fn push_item(out: &mut Seen, item: &TopItem) -> Result<(), OutOfMemory>
    ensures { OnOk result (out.new ≡ out.old ++ item_shapes item.now) }
{
    match item {
        TopItem::Globals(variables) => push_shapes(out, variables.as_slice()),
        TopItem::Function(_) => Ok(()),
    }
}

/// What the variables at file scope are, in the order of the text.
#[tactic(auto, using(crate::proofs::Joined::shapes_joined))]
pub fn shapes(alloc: Global, items: &[TopItem]) -> Result<Vec<Shape>, OutOfMemory>
    ensures { IfOk result (λ all. map shape_of all.items ≡ programs.shapes items.now) }
{
    let mut out = Seen::new(alloc);
    for item in items {
        push_item(&mut out, item)?;
    }
    Ok(out.into_vec())
}

fn first_word(list: &[Expr]) -> u32
    ensures { result ≡ first_or_zero (map constant list.now) }
{
    match list.split_first() {
        None => 0,
        Some((e, _)) => constant_word(e),
    }
}

fn constants(alloc: Global, list: &[Expr]) -> Result<Words, OutOfMemory>
    ensures { IfOk result (λ words. words ≡ map constant list.now) }
{
    let mut words = Words::new(alloc);
    for e in list {
        words.push(constant_word(e))?;
    }
    Ok(words)
}

fn padded(words: Words, count: usize) -> Result<Words, OutOfMemory>
    ensures { IfOk result (λ all. all ≡ meaning.padded count words) }
{
    let mut list = words.into_vec();
    list.truncate(count);
    while list.len() < count {
        list.push(0)?;
    }
    Ok(Words::from_vec(list))
}

/// The words of a variable at file scope at the start.
fn first_words(alloc: Global, g: &GlobalVar) -> Result<Words, OutOfMemory>
    ensures { IfOk result (λ words. words ≡ words_of (meaning.global g.now)) }
{
    match &g.shape {
        c_syntax::Shape::Scalar => {
            let mut words = Words::new(alloc);
            words.push(first_word(g.first.as_slice()))?;
            Ok(words)
        }
        c_syntax::Shape::Array { length } => {
            let count = array_length(length, g.first.as_slice());
            padded(constants(alloc, g.first.as_slice())?, count)
        }
    }
}

fn push_words(
    alloc: Global,
    out: &mut Sequence<Words>,
    variables: &[GlobalVar],
) -> Result<(), OutOfMemory>
    ensures { OnOk result (out.new ≡ out.old ++ map words_of (map meaning.global variables.now)) }
{
    for g in variables {
        let words = first_words(alloc, g)?;
        out.push(words)?;
    }
    Ok(())
}

fn push_item_words(
    alloc: Global,
    out: &mut Sequence<Words>,
    item: &TopItem,
) -> Result<(), OutOfMemory>
    ensures { OnOk result (out.new ≡ out.old ++ item_words item.now) }
{
    match item {
        TopItem::Globals(variables) => push_words(alloc, out, variables.as_slice()),
        TopItem::Function(_) => Ok(()),
    }
}

/// The words of the variables at file scope at the start, in the order of the text.
#[tactic(auto, using(crate::proofs::Joined::words_joined))]
pub fn global_words(alloc: Global, items: &[TopItem]) -> Result<Sequence<Words>, OutOfMemory>
    ensures { IfOk result (λ all. all ≡ map (λ g. object_words g.object) (globals items.now)) }
{
    let mut out = Sequence::new(alloc);
    for item in items {
        push_item_words(alloc, &mut out, item)?;
    }
    Ok(out)
}
