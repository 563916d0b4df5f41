//! Random runs of two hosts that begin procedures in close turns, compared with a plain second writing.
#![tactic(auto)]

#[cfg(test)]
mod commands;
#[cfg(test)]
mod ends;
#[cfg(test)]
mod journals;
#[cfg(test)]
mod links;
#[cfg(test)]
mod pdus;
#[cfg(test)]
mod runs;
