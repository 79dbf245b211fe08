//! What each name is called as: the two functions that are there without a body, and the program's functions by their
//! numbers.

ghost use Rattle.std.specs.Prelude.{◌≡◌, ℕ, ◌+◌, ◌<◌, ◌^◌, ◌==◌, ◌∷◌, [], if◌then◌else◌, length, option_map, IfOk, OnOk};
ghost use Rattle.std.specs.Option.{option_to_list};
ghost use Rattle.c_syntax.specs.Graph.{has_body};
ghost use Rattle.lower_rules.specs.Programs.{in_number_order};
ghost use Rattle.lower_expressions.specs.declared.table.Callee.TheVariants.{NoFunction};
ghost use Rattle.lower_names.specs.Calls.{picks, chosen, defined_as, or_called, callee_in, NotesFrom, meant, AreCallees};

use c_syntax::{Function, TopItem, Ty};
use hard_words::OutOfMemory;
use lower_expressions::Callee;
use std::alloc::Global;

/// The names that mean `main`, and the two functions that are there without a body.
#[derive(Clone, Copy)]
pub struct Names {
    /// `main`.
    pub main: u32,
    /// `in_word`.
    pub in_word: u32,
    /// `out_word`.
    pub out_word: u32,
}

fn has_body(f: &Function) -> bool
    ensures { result ≡ has_body f.now.body }
{
    match &f.body {
        None => false,
        Some(_) => true,
    }
}

fn picks(of_main: bool, is_main: bool) -> bool
    ensures { result ≡ picks of_main is_main }
{
    if of_main { is_main } else { !is_main }
}

/// The function with a body that an external declaration is: one of the name `main`, or one of another name.
pub fn chosen(item: &TopItem, main: u32, of_main: bool) -> Option<&Function>
    ensures { option_to_list (option_map (λ f. f.now) result) ≡ chosen of_main main (item.now ∷ []) }
{
    match item {
        TopItem::Globals(_) => None,
        TopItem::Function(f) => {
            if has_body(f) && picks(of_main, f.name == main) {
                Some(f)
            } else {
                None
            }
        }
    }
}

/// Makes room for a name.
fn grow(all: &mut Vec<Callee>, index: usize) -> Result<(), OutOfMemory>
    ensures same { (q : ℕ) → callee_in all.new.items q ≡ callee_in all.old.items q }
    ensures room { OnOk result (index < length all.new.items) }
{
    while all.len() <= index {
        all.push(Callee::NoFunction)?;
    }
    Ok(())
}

/// Notes what a name is called as.
fn put(all: &mut Vec<Callee>, name: u32, callee: Callee) -> Result<(), OutOfMemory>
    ensures { OnOk result ((q : ℕ) → callee_in all.new.items q ≡ (if q == name then callee else callee_in all.old.items q)) }
{
    let index = name as usize;
    grow(all, index)?;
    all[index] = callee;
    Ok(())
}

/// What a name is called as so far.
fn found(all: &[Callee], name: u32) -> Callee
    ensures { result ≡ callee_in all.now name }
{
    match all.get(name as usize) {
        Some(callee) => *callee,
        None => Callee::NoFunction,
    }
}

/// The first where it is a function, else the second.
fn or_called(first: Callee, second: Callee) -> Callee
    ensures { result ≡ or_called first second }
{
    match first {
        Callee::NoFunction => second,
        Callee::InWord | Callee::OutWord | Callee::Defined { .. } => first,
    }
}

/// What a function with a number is called as.
fn defined_as(number: u32, f: &Function) -> Callee
    ensures { result ≡ defined_as number f.now }
{
    Callee::Defined {
        number,
        arity: f.params.len(),
        is_void: f.ty == Ty::Void,
        is_unsigned: f.ty == Ty::Unsigned,
    }
}

/// Notes a function by its number, where its name has none.
fn note(all: &mut Vec<Callee>, f: &Function, number: u32) -> Result<(), OutOfMemory>
    ensures { OnOk result ((q : ℕ) → callee_in all.new.items q ≡ (if q == f.now.name then or_called (callee_in all.old.items q) (defined_as number f.now) else callee_in all.old.items q)) }
{
    let callee = or_called(found(all.as_slice(), f.name), defined_as(number, f));
    put(all, f.name, callee)
}

/// Notes the function that an external declaration is, if it is chosen; the number of the next function.
fn note_item(
    all: &mut Vec<Callee>,
    item: &TopItem,
    main: u32,
    of_main: bool,
    number: u32,
) -> Result<u32, OutOfMemory>
    requires { number + length (chosen of_main main (item.now ∷ [])) < 2 ^ 32 }
    ensures next { IfOk result (λ n. n ≡ number + length (chosen of_main main (item.now ∷ []))) }
    ensures notes { OnOk result (NotesFrom number (chosen of_main main (item.now ∷ [])) all.old.items all.new.items) }
{
    match chosen(item, main, of_main) {
        None => Ok(number),
        Some(f) => {
            note(all, f, number)?;
            Ok(number + 1)
        }
    }
}

/// Notes the functions that are chosen, in the order of the text; the number of the next function.
fn note_all(
    all: &mut Vec<Callee>,
    items: &[TopItem],
    main: u32,
    of_main: bool,
    number: u32,
) -> Result<u32, OutOfMemory>
    requires { number + length (chosen of_main main items.now) < 2 ^ 32 }
    ensures next { IfOk result (λ n. n ≡ number + length (chosen of_main main items.now)) }
    ensures notes { OnOk result (NotesFrom number (chosen of_main main items.now) all.old.items all.new.items) }
{
    let mut next = number;
    for item in items {
        next = note_item(all, item, main, of_main, next)?;
    }
    Ok(next)
}

/// What each name is called as.
pub fn callees(alloc: Global, names: Names, items: &[TopItem]) -> Result<Vec<Callee>, OutOfMemory>
    requires { length (in_number_order names.main items.now) < 2 ^ 32 }
    ensures { IfOk result (λ all. AreCallees (meant names) items.now all.items) }
{
    let mut all = Vec::new(alloc);
    let next = note_all(&mut all, items, names.main, true, 0)?;
    note_all(&mut all, items, names.main, false, next)?;
    put(&mut all, names.out_word, Callee::OutWord)?;
    put(&mut all, names.in_word, Callee::InWord)?;
    Ok(all)
}
