//! Tests of a controller: scripts of calls, each with what it gives.
#![tactic(auto)]

#[cfg(test)]
mod advertising_tests;
#[cfg(test)]
mod answer_tests;
#[cfg(test)]
mod asking_tests;
#[cfg(test)]
mod calls;
#[cfg(test)]
mod channel_tests;
#[cfg(test)]
mod command_tests;
#[cfg(test)]
mod data_tests;
#[cfg(test)]
mod host_flow_tests;
#[cfg(test)]
mod link_tests;
#[cfg(test)]
mod procedure_tests;
#[cfg(test)]
mod scanning_tests;
#[cfg(test)]
mod scripts;
