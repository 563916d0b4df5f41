//! Random runs of two controllers of three links, whose events, advertisements and scans share the
//! radio, compared with a plain second writing of who has it in each slot.
#![tactic(auto)]

#[cfg(test)]
mod commands;
#[cfg(test)]
mod journals;
#[cfg(test)]
mod links;
#[cfg(test)]
mod pairs;
#[cfg(test)]
mod runs;
#[cfg(test)]
mod sides;
#[cfg(test)]
mod words;
