//! The syntax tree of the C subset (ISO/IEC 9899:1999, 6.5 to 6.9), and what is counted of it: who calls whom, sizes, costs, and
//! the shape that the parser gives.
#![tactic(auto)]

mod tree;

pub use tree::{
    BinaryOp, Clause, Expr, Function, GlobalVar, Label, Local, Param, Program, Shape, Stmt,
    TopItem, Ty, UnaryOp,
};
