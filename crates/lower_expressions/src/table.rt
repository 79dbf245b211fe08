//! What names stand for, by their numbers.

ghost use Rattle.std.specs.Prelude.{◌≡◌, slice_index_or};
ghost use Rattle.lower_rules.specs.Bindings as law;
ghost use Rattle.lower_expressions.specs.declared.table.Callee.TheVariants.{NoFunction};
ghost use Rattle.lower_expressions.specs.Names.{symbol_of, callee_of, names_of, unknown, AreKnown};

/// What a name stands for.
#[derive(Clone, Copy)]
pub enum Symbol {
    /// A variable of the function.
    Local(u32),
    /// A global of one word.
    Global(u32),
    /// An array.
    Array(u32),
    /// Nothing.
    Nothing,
}

/// What an expression designates.
#[derive(Clone, Copy)]
pub enum Target {
    /// Nothing.
    Neither,
    /// What a name stands for.
    Named(u32),
    /// An element of it.
    Indexed(u32),
}

/// What a name is called as.
#[derive(Clone, Copy)]
pub enum Callee {
    /// The call that reads a word of the input.
    InWord,
    /// The call that puts out a word.
    OutWord,
    /// A function with a body.
    Defined {
        /// Its number.
        number: u32,
        /// How many parameters it has.
        arity: usize,
        /// Whether it returns nothing.
        is_void: bool,
        /// Whether it returns an unsigned word.
        is_unsigned: bool,
    },
    /// No function with a body.
    NoFunction,
}

/// What is known of a name.
#[derive(Clone, Copy)]
pub struct Known {
    /// What it stands for.
    pub symbol: Symbol,
    /// Whether the variable, or the array's elements, are unsigned.
    pub is_unsigned: bool,
}

/// A variable of a function.
#[derive(Clone, Copy)]
pub struct Variable {
    /// Its name.
    pub name: u32,
    /// Whether it is unsigned.
    pub is_unsigned: bool,
}

/// A variable at file scope.
#[derive(Clone, Copy)]
pub struct Shape {
    /// Its name.
    pub name: u32,
    /// Whether it is an array.
    pub is_array: bool,
    /// Whether the variable, or the array's elements, are unsigned.
    pub is_unsigned: bool,
    /// How many words it has.
    pub words: usize,
}

/// The variables and the globals of a function, and what each name stands for and is called as.
#[derive(Drop)]
pub struct Table {
    /// The function's variables, its parameters first.
    pub variables: Vec<Variable>,
    /// The globals.
    pub globals: Vec<Shape>,
    /// What is known of each name.
    pub known: Vec<Known>,
    /// What each name is called as.
    pub callees: Vec<Callee>,
}

/// What is known of a name.
fn known_as(table: &Table, name: u32) -> Known
    ensures { result ≡ slice_index_or table.now.known.items name unknown }
{
    match table.known.get(name as usize) {
        Some(known) => *known,
        None => Known {
            symbol: Symbol::Nothing,
            is_unsigned: false,
        },
    }
}

/// What a name stands for.
pub fn symbol_named(table: &Table, name: u32) -> Symbol
    requires { AreKnown table.now }
    ensures { symbol_of result ≡ law.symbol (names_of table.now) name }
{
    known_as(table, name).symbol
}

/// Whether the variable of a name, or the array's elements, are unsigned.
pub(crate) fn name_unsigned(table: &Table, name: u32) -> bool
    requires { AreKnown table.now }
    ensures { result ≡ law.name_unsigned (names_of table.now) name }
{
    known_as(table, name).is_unsigned
}

/// What a name is called as.
fn found_callee(table: &Table, name: u32) -> Callee
    ensures { result ≡ slice_index_or table.now.callees.items name NoFunction }
{
    match table.callees.get(name as usize) {
        Some(callee) => *callee,
        None => Callee::NoFunction,
    }
}

/// What a name is called as.
#[tactic(auto, using(crate::proofs::Named::called))]
pub(crate) fn called_as(table: &Table, name: u32) -> Callee
    ensures { callee_of result ≡ (names_of table.now).callee name }
{
    found_callee(table, name)
}
