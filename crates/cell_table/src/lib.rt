//! A table of numbered places, each of which holds at most one value in a cell of a pool.
//!
//! [`CellTable::make`] takes the memory for all values; no later call takes any.
#![tactic(auto)]

mod table;

pub use crate::table::CellTable;
