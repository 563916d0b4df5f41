//! Tests of links that encrypt: turn by turn, what each phase lets an end take, and random payloads.
#![tactic(auto)]

#[cfg(test)]
mod encrypted_links;
#[cfg(test)]
mod phases;
#[cfg(test)]
mod random_payloads;
