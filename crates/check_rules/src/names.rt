//! What a name designates, and what stands around a statement.

use c_syntax::Ty;
use sqlite_items::Items;

/// What a name designates (ISO/IEC 9899:1999, 6.2.1).
#[derive(Drop)]
pub enum Kind {
    /// A variable of one word.
    Scalar {
        /// Whether it can't be assigned to.
        is_const: bool,
    },
    /// An array.
    Array {
        /// Whether its elements can't be assigned to.
        is_const: bool,
    },
    /// A function.
    Function {
        /// What it returns.
        ty: Ty,
        /// The types of its parameters.
        params: Items<Ty>,
    },
}

/// A declaration in force.
#[derive(Drop)]
pub struct Known {
    /// Its position among all declarations.
    pub position: u32,
    /// What it makes its name designate.
    pub kind: Kind,
}

/// A name with its declaration in one scope.
#[derive(Drop)]
pub struct Binding {
    /// The name.
    pub name: u32,
    /// The declaration.
    pub known: Known,
}

/// What stands around a statement.
#[derive(Clone, Copy, Drop)]
pub struct Around {
    /// What the function returns.
    pub ty: Ty,
    /// Whether a loop of the function is around it.
    pub in_loop: bool,
    /// Whether a `switch` of the function is around it.
    pub in_switch: bool,
}
