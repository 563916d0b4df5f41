//! Two controllers that are driven by their public calls alone: their notes are the lines that the
//! journal of the same run has of them.
#![tactic(auto)]

#[cfg(test)]
mod driving;
#[cfg(test)]
mod lines;
#[cfg(test)]
mod runs;
