//! Tests of the lines of a journal: `journal`, over its public contracts alone.
#![tactic(auto)]

#[cfg(test)]
mod entries;
#[cfg(test)]
mod lines;
#[cfg(test)]
mod scripts;
