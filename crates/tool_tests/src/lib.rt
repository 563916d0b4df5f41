//! Tests of the program as a function where its work is done. Its words, files, faults and journals
//! are tested in the crates of its inside.
#![tactic(auto)]

#[cfg(test)]
mod calls;
