//! Tests of the parts of a link, over the public calls of the crates below.
#![tactic(auto)]

#[cfg(test)]
mod acks;
#[cfg(test)]
mod cells;
#[cfg(test)]
mod channels;
#[cfg(test)]
mod indications;
#[cfg(test)]
mod plain;
#[cfg(test)]
mod scripts;
#[cfg(test)]
mod tracks;
