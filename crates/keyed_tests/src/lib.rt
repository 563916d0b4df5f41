//! Tests of both ends of a link with their keys, with the sample data of Core 5.2, volume 6 part C,
//! section 1.
#![tactic(auto)]

#[cfg(test)]
mod hosts;
#[cfg(test)]
mod pauses;
#[cfg(test)]
mod rooms;
#[cfg(test)]
mod sample;
#[cfg(test)]
mod starts;
