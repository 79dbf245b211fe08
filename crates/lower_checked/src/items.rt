//! The literals and the cases of the items of a program.

ghost use Rattle.std.specs.Prelude.{◌≡◌, true, IsTrue};
ghost use Rattle.std.specs.List.{list_all};
ghost use Rattle.c_meaning.specs.Meaning.{Names};
ghost use Rattle.c_syntax.specs.Literals.{shape_literals, global_literals, item_literals, items_literals};
ghost use Rattle.lower_rules.specs.Labels.{CasesAreWords};
ghost use Rattle.lower_checked.specs.Cases.{item_cases};

use crate::expressions::{expressions_hold_words, part_holds_words};
use crate::statements::statements_hold_words;
use c_syntax::{GlobalVar, Shape, TopItem};

/// Goes through a tree, whose literals and the words of whose cases are words since they are held as such.
pub fn tree_holds_words(items: &[TopItem])
    ensures literals { IsTrue (items_literals items.now) }
    ensures cases { (names : Names) → CasesAreWords names items.now }
{
    for item in items {
        item_holds_words(item);
    }
}

/// Goes through an item: the initialisers of variables, or the body of a function.
fn item_holds_words(item: &TopItem)
    ensures literals { item_literals item.now ≡ true }
    ensures cases { item_cases item.now ≡ true }
{
    match item {
        TopItem::Globals(globals) => globals_hold_words(globals.as_slice()),
        TopItem::Function(function) => {
            if let Some(body) = &function.body {
                statements_hold_words(body.as_slice());
            }
        }
    }
}

/// Goes through the lengths and the initialisers of variables at file scope.
fn globals_hold_words(globals: &[GlobalVar])
    ensures { list_all global_literals globals.now ≡ true }
{
    for global in globals {
        shape_holds_words(&global.shape);
        expressions_hold_words(global.first.as_slice());
    }
}

/// Goes through the length of an array.
fn shape_holds_words(shape: &Shape)
    ensures { shape_literals shape.now ≡ true }
{
    match shape {
        Shape::Scalar => {}
        Shape::Array { length } => part_holds_words(length),
    }
}
