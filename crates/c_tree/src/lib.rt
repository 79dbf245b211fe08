//! The syntax tree of the C subset and its meaning, handed on; and what is asked of trees off the way of compiling: depth, nodes,
//! block cost without memory, and the examples of the meaning.
#![tactic(auto)]

mod costs;
mod examples;
mod sizes;

pub use c_costs::weight;
pub use c_meaning::{
    EvalEnd, Flow, Place, Value, binary_type, calls_return, levels_agree, more_fuel, operate,
    operate_unary, output_is_added, recursive_is_chain, unary_type,
};
pub use c_syntax::{
    BinaryOp, Clause, Expr, Function, GlobalVar, Label, Local, Param, Program, Shape, Stmt,
    TopItem, Ty, UnaryOp,
};
pub use costs::block_cost;
pub use examples::examples_hold;
pub use sizes::{depth, nodes};
