//! The parameters of a link by connection event: from which event an indication holds, and where
//! the anchors are (Core 5.2, volume 6 part B, sections 5.1.1, 5.1.2 and 5.5).
#![tactic(auto)]

mod indications;
mod laws;
mod track;

pub use crate::indications::{Indication, Params};
pub use crate::laws::{calls_follow_indications, ends_agree, track_follows_indications};
pub use crate::track::{Change, ParamTrack, Passed};
