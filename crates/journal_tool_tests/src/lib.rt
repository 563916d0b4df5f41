//! Tests of the programs over journals, from words and files to statuses, outputs and error lines.
#![tactic(auto)]

#[cfg(test)]
mod calls;
#[cfg(test)]
mod files;
#[cfg(test)]
mod lines;
#[cfg(test)]
mod scripts;
#[cfg(test)]
mod statuses;
#[cfg(test)]
mod writes;
