//! The control part of one end of a link: its table of procedures and its parameters together, as a
//! link holds them (Core 5.2, volume 6 part B, sections 5.1.1, 5.1.2 and 5.5).
#![tactic(auto)]

mod answers;
mod end;
mod following;
mod host;
mod laws;
mod readers;
mod sending;
mod taking;

pub use crate::answers::{Entry, Taken};
pub use crate::end::ControlEnd;
pub use crate::laws::{
    ends_can_follow_what_they_send, reached_ends_have_room, steps_depend_on_what_is_held,
};
