//! What is wrong with a C program: the definition of its first fault by scopes, types and limits, and the law that a program without
//! fault runs as the program whose names are the positions of their declarations.
#![tactic(auto)]

mod checked;
mod decl;
mod error;
mod names;

pub use checked::Checked;
pub use decl::Decl;
pub use error::{CheckError, CheckKind};
pub use names::{Around, Binding, Kind, Known};
