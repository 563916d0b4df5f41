//! The chart of a journal as an SVG document: a row for each line but those of turns, the packets
//! as lines between the life lines of both sides (our choice).
#![tactic(auto)]

mod charts;
mod laws;
mod layout;
mod pdus;
mod places;
mod rows;
mod shapes;
mod svg;
mod words;

pub use crate::charts::{chart_end, chart_rows, chart_start};
pub use crate::laws::{a_chart_is_its_parts, each_packet_is_named_once};
pub use crate::places::Place;
