//! Tests of the open links of controllers, of their data and of their control procedures: scripts
//! of calls, each with what it gives.
#![tactic(auto)]

#[cfg(test)]
mod ends;
#[cfg(test)]
mod hosts;
#[cfg(test)]
mod link_data;
#[cfg(test)]
mod links;
#[cfg(test)]
mod procedure_calls;
#[cfg(test)]
mod scripts;
#[cfg(test)]
mod setups;
#[cfg(test)]
mod sides;
