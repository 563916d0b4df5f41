//! Tests of the parts of a controller, over public contracts alone: the packets of a host, the view
//! of it, an advertiser, a scanner, an initiator, and who has the radio.
#![tactic(auto)]

#[cfg(test)]
mod advertisers;
#[cfg(test)]
mod frames;
#[cfg(test)]
mod listeners;
#[cfg(test)]
mod plans;
#[cfg(test)]
mod scripts;
#[cfg(test)]
mod views;
