//! What the host of a controller asks of its links may come there: the step of an accepted command
//! on a link, since the view of the host knows each end. Definitions and laws; no code.
#![tactic(auto)]

mod both_ends;
mod laws;
mod links_going;
mod open_ends;
mod rows;
mod views;

pub use crate::both_ends::commands_leave_ends_linked;
pub use crate::laws::{
    a_command_keeps_what_is_known, a_link_is_known_while_it_lasts, a_new_link_is_known,
    a_step_keeps_what_is_known, accepted_commands_may_come, an_answer_keeps_what_is_known,
};
pub use crate::links_going::{links_that_go_on_stay_known, opened_and_shut_links_are_known};
pub use crate::open_ends::all_links_stay_known;
pub use crate::rows::{a_peer_may_withdraw_its_request, an_answer_at_once_is_taken};
pub use crate::views::{
    all_steps_of_a_command_may_come, an_opened_link_is_known, commands_change_their_link,
    commands_keep_what_is_known, notes_change_their_link, steps_keep_what_is_known,
};
