//! Tests of `raw_block`, over its public calls.
#![tactic(auto)]

#[cfg(test)]
mod cells;
#[cfg(test)]
mod drops;
