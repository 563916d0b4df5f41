//! What a controller notes for its host: answers to its commands, the events that its masks let
//! through, links that are opened and shut, what their control procedures do, and data; what its
//! commands ask of links; and the view of the host, which follows the notes (Core 5.2, volume 4
//! part E, sections 5.4, 7.1, 7.7 and 7.8).
#![tactic(auto)]

mod answers;
mod asking;
mod data;
mod entering;
mod following;
mod hearing;
mod keys;
mod links;
mod masks;
mod reports;

pub use answers::{
    Fields, fields_with, put_longest, refused_answer, short_answer, status_answer, tell_accepted,
};
pub use asking::{ask_links, note_at_once, tell_at_once};
pub use data::{hand_up, tell_completed, tell_offer};
pub use entering::enter_links;
pub use following::follow_from;
pub use hearing::{Heard, hear_on_link};
pub use keys::turned;
pub use links::{note_opened, note_shuts, tell_caused, tell_ends, tell_opened};
pub use masks::{tell, tell_if};
pub use reports::event_reported;
