//! Tests of the control procedures of one end of a link, and of its control part.
#![tactic(auto)]

#[cfg(test)]
mod calls;
#[cfg(test)]
mod control_ends;
#[cfg(test)]
mod plain;
#[cfg(test)]
mod plain_taking;
#[cfg(test)]
mod plain_tests;
#[cfg(test)]
mod scripts;
#[cfg(test)]
mod worked_runs;
