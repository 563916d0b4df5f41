//! Which PDU an end of a link sends next and what MD says, and the end as that PDU is fixed and goes,
//! by the lines of a journal, in all phases of encryption. Definitions and laws; no code.
#![tactic(auto)]

mod histories;
mod journals;
mod one_end;
mod rows;
mod runs;
mod sent_lines;
mod sent_pdus;
mod told_more;
mod turns;

pub use crate::histories::{
    a_packet_keeps_the_control_part_that_fixed_a_pdu, a_turn_begins_with_no_pdu_fixed,
    calls_keep_the_control_part_that_fixed_a_pdu,
};
pub use crate::journals::{
    the_control_part_is_kept_as_a_packet_is_heard, the_control_part_is_kept_as_a_pdu_is_fixed,
};
pub use crate::one_end::{
    a_pdu_is_fixed_by_the_control_part, a_peripheral_answers_with_the_pdu_that_it_fixed,
    a_piece_is_next_where_octets_wait, an_end_sends_the_pdu_that_it_fixed,
    lines_tell_whether_a_control_pdu_is_acknowledged,
};
pub use crate::rows::{worked_fixing, worked_md, worked_next_pdus};
pub use crate::runs::{
    the_control_part_that_fixed_a_pdu_is_kept_by_the_lines,
    the_control_part_with_which_a_pdu_goes_is_kept_by_the_lines,
    what_an_end_does_after_it_fixed_its_pdu,
};
pub use crate::sent_lines::{
    a_peripheral_answers_with_the_line_of_the_pdu_that_the_lines_fix,
    a_turn_begins_with_the_line_of_the_pdu_that_the_lines_fix,
};
pub use crate::sent_pdus::{
    a_central_sends_the_pdu_that_the_lines_fix,
    a_peripheral_answers_with_the_pdu_that_the_lines_fix,
};
pub use crate::told_more::{
    each_packet_carries_the_pdu_and_md_of_its_end, each_packet_tells_what_waits_by_the_lines,
};
pub use crate::turns::{
    a_call_that_begins_a_turn_keeps_the_control_part_that_fixes,
    the_lines_before_a_new_pdu_move_the_control_part_that_fixes_it,
};
