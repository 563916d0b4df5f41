//! Tests of `chart`, over its public contracts alone.
#![tactic(auto)]

#[cfg(test)]
mod control;
#[cfg(test)]
mod rows;
