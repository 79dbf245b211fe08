//! Three-address code in blocks. The variables of a function are numbered from 0: its parameters, then the others.

use hard_words::{Sequence, Words};

/// An operation on two words; division and remainder trap where they have no result.
#[derive(Clone, Copy, Debug, PartialEq, Eq)]
pub enum MidOp {
    /// The sum, which wraps.
    Add,
    /// The difference, which wraps.
    Sub,
    /// The low word of the product.
    Mul,
    /// The quotient of words with sign, toward zero.
    Div,
    /// The quotient of words without sign.
    DivU,
    /// The remainder of words with sign, with the dividend's sign.
    Rem,
    /// The remainder of words without sign.
    RemU,
    /// The left word shifted to the left by the low five bits of the right one.
    Shl,
    /// Shifted to the right, zeros above.
    Shr,
    /// Shifted to the right, with the sign above.
    Sar,
    /// Bitwise and.
    And,
    /// Bitwise or.
    Or,
    /// Bitwise exclusive or.
    Xor,
    /// 1 where the left word, with sign, is below the right one, else 0.
    Lt,
    /// The same without sign.
    LtU,
    /// 1 where the words are equal, else 0.
    Eq,
    /// 1 where they differ, else 0.
    Ne,
}

/// A step of a block.
#[derive(Clone, Copy, Debug, PartialEq, Eq)]
pub enum MidStep {
    /// Sets a variable to a word.
    Constant {
        /// The variable.
        to: u32,
        /// The word.
        word: u32,
    },
    /// Sets a variable to what another holds.
    Copy {
        /// The variable that is set.
        to: u32,
        /// The other.
        from: u32,
    },
    /// Sets a variable to the result of an operation, or traps: with 7 on a zero divisor, with 6 where a quotient with
    /// sign doesn't fit.
    Operate {
        /// The operation.
        op: MidOp,
        /// The variable that is set.
        to: u32,
        /// The variable with the left word.
        left: u32,
        /// The variable with the right word.
        right: u32,
    },
    /// Traps with 8 where an index, as a word without sign, isn't below the length of a global.
    Guard {
        /// The global.
        global: u32,
        /// The variable with the index.
        index: u32,
    },
    /// Sets a variable to a word of a global.
    Load {
        /// The variable that is set.
        to: u32,
        /// The global.
        global: u32,
        /// The variable with the word's place in the global; the first word where there is none.
        index: Option<u32>,
    },
    /// Sets a word of a global to what a variable holds.
    Store {
        /// The global.
        global: u32,
        /// The variable with the word's place in the global; the first word where there is none.
        index: Option<u32>,
        /// The variable with the word.
        from: u32,
    },
    /// Sets a variable to the next word of the input; where none is left the run ends as starved.
    Input {
        /// The variable.
        to: u32,
    },
    /// Puts out the word that a variable holds.
    Output {
        /// The variable.
        from: u32,
    },
    /// Traps with 9 where a variable holds 0: calls of functions that reach themselves are nested too deep.
    Deep {
        /// The variable.
        test: u32,
    },
}

/// The end of a block.
#[derive(Debug, Drop)]
pub enum MidEnd {
    /// Goes on at a block.
    Jump {
        /// The block.
        to: u32,
    },
    /// Goes on at a block where the test is non-zero exactly if `when`, else at the next block.
    Branch {
        /// The variable that is tested.
        test: u32,
        /// Whether the branch is taken where the variable isn't 0, else where it is.
        when: bool,
        /// The block.
        to: u32,
    },
    /// Calls a function, and goes on at the next block.
    Call {
        /// The function's number.
        function: u32,
        /// The variables with the words of its parameters, in order.
        args: Words,
        /// The variable that takes what is returned, if one does.
        result: Option<u32>,
    },
    /// Returns a word: what a variable holds, or 0 where there is none.
    Return {
        /// The variable.
        from: Option<u32>,
    },
}

/// A block: steps, and then the end.
#[derive(Debug, Drop)]
pub struct MidBlock {
    /// The steps in order.
    pub steps: Sequence<MidStep>,
    /// How it ends.
    pub end: MidEnd,
}

/// A function. A call begins at its first block.
#[derive(Debug, Drop)]
pub struct MidFunction {
    /// How many parameters it has, the first of its variables.
    pub params: u32,
    /// How many variables it has.
    pub variables: u32,
    /// How many pairs of words a call of it takes on the stack.
    pub pairs: u32,
    /// Its blocks, in order.
    pub blocks: Sequence<MidBlock>,
}

/// A program in blocks. Function 0 is `main`.
#[derive(Debug, Drop)]
pub struct Mid {
    /// Its functions.
    pub functions: Sequence<MidFunction>,
    /// The words of each global at the start.
    pub globals: Sequence<Words>,
    /// The most pairs that the active calls take on the stack together.
    pub chain_pairs: u32,
}

/// How a run of a program in blocks ends.
#[derive(Clone, Copy, Debug, PartialEq, Eq)]
pub enum RunEnd {
    /// `main` returned this word.
    Exited(u32),
    /// A step trapped with this number.
    Trapped(u32),
    /// A word of the input was asked for where none was left.
    Starved,
}
