//! Tests of the codecs over outside vectors: commands and events of a host, PDUs, packets on the
//! air, and the types that all of them share. Most are scripts of calls, each with what it gives.
#![tactic(auto)]

#[cfg(test)]
mod advertising;
#[cfg(test)]
mod base;
#[cfg(test)]
mod calls;
#[cfg(test)]
mod commands;
#[cfg(test)]
mod control;
#[cfg(test)]
mod events;
#[cfg(test)]
mod fields;
#[cfg(test)]
mod headers;
#[cfg(test)]
mod packets;
#[cfg(test)]
mod plain;
#[cfg(test)]
mod radio_calls;
#[cfg(test)]
mod scripts;
#[cfg(test)]
mod sums;
