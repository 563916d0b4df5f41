//! The open links of a controller, each under its handle: which of them end, which enter an event,
//! which want the radio, what happens to each of them, what their host asks for, and what waits of
//! their data.
#![tactic(auto)]

mod ended;
mod ending;
mod entering;
mod hosting;
mod hosts;
mod keys;
mod laws;
mod links;
mod offers;
mod places;
mod reporting;
mod using;

pub use crate::ended::LinkEnded;
pub use crate::ending::MOST_LINKS;
pub use crate::laws::{
    a_change_leaves_other_links, a_link_exchanges_from_its_first_event_on,
    buffers_are_those_of_open_links, each_call_keeps_the_places, each_link_has_its_own_handle,
    links_end_where_they_have_a_reason, new_handle_is_free_and_least, no_anchor_is_missed,
    what_is_done_under_a_handle_leaves_others,
};
pub use crate::links::OpenLinks;
pub use crate::offers::{Completed, Offer};
pub use link_end::{
    Entry, LinkEnd, LinkSetup, LinkStep, PeerFacts, PeerVersion, a_sealed_packet_is_opened,
};
