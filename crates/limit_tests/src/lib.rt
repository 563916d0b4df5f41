//! Tests at the limits: the most of each thing is taken, and one more is refused with the fault for
//! that, and not with out of memory.
#![tactic(auto)]

#[cfg(test)]
mod banks;
#[cfg(test)]
mod calls;
#[cfg(test)]
mod controllers;
#[cfg(test)]
mod journals;
#[cfg(test)]
mod runs;
