//! Laws of both ends of a link over whole runs, turn by turn: whatever their hosts do, whichever end
//! has the radio, and whatever is lost between them. The definitions are in `specs`; no code is here.
#![tactic(auto)]

mod laws;
mod rows;

pub use crate::laws::{each_link_is_sound, links_stay_linked_turn_by_turn};
pub use crate::rows::{
    a_central_ends_a_link, a_link_goes_on, a_peripheral_ends_a_link, an_update_comes_too_late,
    runs_meet_the_premises,
};
// what the laws above rest on too
pub use link_pairs::a_sealed_packet_is_opened;
