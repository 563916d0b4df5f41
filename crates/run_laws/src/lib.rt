//! Laws over both ends of a link in every run of controllers. None of them names code.
#![tactic(auto)]

mod access;
mod agreement;
mod ends;
mod ranges;
mod rows;

pub use crate::access::access_addresses_are_taken_in_order;
pub use crate::agreement::{
    both_ends_hear_each_other, ends_of_two_stations_agree, ends_stay_in_agreement_in_every_run,
    ends_that_hear_each_other_agree, what_is_taken_was_given_in_every_run,
};
pub use crate::ends::{
    each_station_begins_the_turns, ends_of_one_link_agree, ends_of_one_link_have_one_connect_ind,
};
pub use crate::ranges::{
    packets_are_understood_on_their_channel, what_hosts_ask_is_in_range,
    what_is_sent_is_empty_or_has_octets,
};
pub use crate::rows::worked_ends;
pub use run_model::{a_pdu_is_understood, each_packet_on_the_air_is_due};
