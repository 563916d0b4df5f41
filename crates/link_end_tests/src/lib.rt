//! Tests of one end of a link with its control procedures, of both ends, and of the events that a
//! host gets.
#![tactic(auto)]

#[cfg(test)]
mod host_events;
#[cfg(test)]
mod random_runs;
#[cfg(test)]
mod rare_links;
#[cfg(test)]
mod worked_links;
