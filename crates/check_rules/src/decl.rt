//! What a declaration declares.

use c_syntax::Ty;
use hard_words::Words;
use sqlite_items::Items;

/// What a declaration declares (ISO/IEC 9899:1999, 6.7).
#[derive(Drop)]
pub enum Decl {
    /// A variable of one word: of a block, a parameter or, with what it holds before the run, of the file.
    Scalar {
        /// Its type.
        ty: Ty,
        /// Whether it can't be assigned to.
        is_const: bool,
        /// Whether it is a variable of the file.
        is_global: bool,
        /// What it holds before the run; 0 where it isn't a variable of the file.
        first: u32,
    },
    /// An array with what its elements hold before the run.
    Array {
        /// The type of its elements.
        ty: Ty,
        /// Whether its elements can't be assigned to.
        is_const: bool,
        /// The words of its elements.
        first: Words,
    },
    /// A function.
    Function {
        /// What it returns.
        ty: Ty,
        /// The types of its parameters.
        params: Items<Ty>,
        /// Whether some item has its body.
        has_body: bool,
    },
    /// `int in_word(void)`.
    InWord,
    /// `void out_word(int)`.
    OutWord,
}
