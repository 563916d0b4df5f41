//! Tests of files and streams: `outside`, over its public contracts alone.
#![tactic(auto)]

#[cfg(test)]
mod files;
#[cfg(test)]
mod reads;
#[cfg(test)]
mod scripts;
#[cfg(test)]
mod sinks;
#[cfg(test)]
mod streams;
