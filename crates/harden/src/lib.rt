//! From a program in blocks to a hardened image with its lists: places, frames, doubled code, checks, turns, edges, far branches,
//! signatures, words.
#![tactic(auto)]

mod blocks_image;
mod items;
mod items_image;
mod places;

pub use blocks_image::{compile_blocks, compile_blocks_split};
pub use items_image::{harden, harden_split};
