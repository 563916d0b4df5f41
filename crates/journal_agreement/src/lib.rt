//! Both ends of a link by the lines of a journal: they follow the indications that the central
//! sent, and enter each event alike. Definitions and laws; no code.
#![tactic(auto)]

mod events;
mod rows;

pub use crate::events::{
    ends_that_follow_the_central_enter_alike, ends_that_take_in_order_follow_the_central,
};
pub use crate::rows::{worked_indications, worked_readings};

// What the crates above call of those below.
pub use journal_data::{
    data_arrives_in_order_in_every_journal, data_of_two_stations_arrives_in_order,
};
