//! Joint runs of the exchanges of features, lengths and versions of a central and a peripheral
//! (Core 5.2, volume 6 part B, sections 5.1.4, 5.1.5 and 5.1.9). Definitions and laws; no code.
#![tactic(auto)]

mod laws;
mod rows;

pub use crate::laws::{
    a_receive_maximum_that_stays_is_known, an_end_knows_what_the_other_receives,
    answers_find_their_questions, data_fits_its_receiver, each_exchange_is_in_one_place,
    few_exchange_pdus_wait, lengths_are_an_exchange, version_exchanges_end, versions_are_sent_once,
};
pub use crate::rows::{worked_exchanges, worked_lengths, worked_versions};
