//! The control part, the phase and the keys of each end of a link, by the lines of a journal, what
//! moves them at one end, and the law that in each run of two stations they are those that the end
//! holds. Definitions and laws; no code.
#![tactic(auto)]

mod calls;
mod ends;
mod events;
mod fixing;
mod journals;
mod rows;
mod runs;
mod turns;

pub use crate::calls::{
    a_call_moves_the_control_part_by_its_lines,
    the_lines_of_an_end_move_the_control_part_by_its_notes,
};
pub use crate::ends::{
    a_forged_packet_ends_the_control_part, a_good_packet_moves_the_control_part_by_its_lines,
    a_sending_moves_the_control_part_by_its_lines, an_end_begins_with_the_control_part_of_its_link,
    an_entry_moves_the_control_part_by_its_lines, counts_tell_of_an_end_that_hears,
};
pub use crate::events::{
    a_packet_moves_the_control_part_of_the_end_that_hears_it,
    turns_and_hosts_leave_the_control_part,
};
pub use crate::fixing::{a_control_pdu_is_fixed_where_one_waits, what_open_ends_have_fixed};
pub use crate::journals::only_what_an_end_says_and_hears_moves_its_control_part;
pub use crate::rows::{
    worked_asks, worked_controls, worked_counters, worked_lines_due, worked_requests,
    worked_versions,
};
pub use crate::runs::{
    the_control_part_by_lines_is_the_one_that_the_end_holds,
    the_keys_by_lines_are_those_that_the_end_holds,
};
pub use crate::turns::{
    a_packet_that_is_taken_moves_the_control_part_by_its_lines,
    a_turn_that_begins_moves_the_control_part_by_its_lines,
};

// What the crates above call of those below.
pub use journal_ends::a_pdu_is_understood;
