//! Tests of the program, from its words, files and schedules to its status, journal and error line.
#![tactic(auto)]

#[cfg(test)]
mod air;
#[cfg(test)]
mod answers;
#[cfg(test)]
mod calls;
#[cfg(test)]
mod colliding;
#[cfg(test)]
mod data;
#[cfg(test)]
mod encrypting;
#[cfg(test)]
mod lengths;
#[cfg(test)]
mod lines;
#[cfg(test)]
mod links;
#[cfg(test)]
mod loads;
#[cfg(test)]
mod scripts;
#[cfg(test)]
mod statuses;
