//! A pool of a fixed number of cells, each of which holds one value under a number.
//!
//! [`CellPool::make`] takes the memory for all cells; no later call takes any.
#![tactic(auto)]

mod cell;
mod pool;

pub use crate::pool::{CellNo, CellPool};
