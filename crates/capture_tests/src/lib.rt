//! Tests of captures: octets from outside, and hostile lines.
#![tactic(auto)]

#[cfg(test)]
mod captures;
