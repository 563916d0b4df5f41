//! A fixed number of cells in one region of memory, each of which holds one value under a number.
//!
//! [`RawBlock::make`] takes the region; no later call takes any memory. The free cells are chained
//! inside it: each holds the number of the next.
#![tactic(auto)]

mod block;
mod cell;
mod places;
mod pointers;
mod region;

pub use crate::block::{CellNo, RawBlock};
