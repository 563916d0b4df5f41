//! What each call on a controller does to the link under one handle: which link was there before,
//! and what happened to it. Definitions and laws; no code is here.
#![tactic(auto)]

mod calls;
mod exchanges;
mod rows;

pub use crate::calls::{
    a_host_gives_data_or_asks, a_link_receives_answers_and_sends, a_turn_begins_on_links,
    a_turn_ends_on_links, only_a_central_refuses,
};
pub use crate::exchanges::each_end_exchanges_in_its_events;
pub use crate::rows::worked_turns;
pub use run_laws::{a_pdu_is_understood, each_packet_on_the_air_is_due};
