//! Laws of both ends of a link, call by call: whatever their hosts ask for and whatever is lost
//! between them, they are a joint run as long as the link goes on. The definitions are in `specs`;
//! no code is here.
#![tactic(auto)]

mod laws;
mod parting;
mod rows;
mod soundness;

pub use crate::laws::{
    a_central_that_hears_stays_linked, a_new_link_is_linked, a_peripheral_that_hears_stays_linked,
    a_turn_leaves_ends_linked, hosts_leave_ends_linked,
};
pub use crate::parting::{
    a_sender_hears_the_end, a_taker_ends_with_the_code, a_taker_hears_nothing_new,
    a_turn_leaves_ends_parting, hosts_leave_ends_parting, taking_terminate_parts_two_ends,
    terminate_is_sent_again, the_end_is_mixed_only_with_other_keys,
};
pub use crate::rows::{a_host_ends_a_link, a_version_is_exchanged, an_update_comes_late};
pub use crate::soundness::{
    a_packet_is_mixed_only_with_other_keys, linked_ends_are_sound, linked_ends_hear_in_one_event,
    linked_ends_understand_each_other, only_a_late_peripheral_ends_a_link,
};
// what the laws above rest on too
pub use link_model::a_sealed_packet_is_opened;
