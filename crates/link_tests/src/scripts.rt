//! Scripts: each line has a call on a part of a link, and after " =" what it gives. A value is as
//! `Debug` writes it.
use crate::{acks, cells, channels, tracks};
use ack_bit::AckEnd;
use instants::ParamTrack;
use std::alloc::{AllocError, Global};
use std::process::Abort;
use test_words::{Call, TakesCalls, first_wrong};

/// The parameters of a link, and the acknowledgement state of one end.
#[derive(Clone, Copy)]
struct Parts {
    track: ParamTrack,
    end: AckEnd,
}

/// The parts of a new link.
fn new_parts() -> Parts {
    Parts {
        track: tracks::new_track(),
        end: AckEnd::new(),
    }
}

/// Makes each call of a script, and compares what it gives. The first call is on a new link, and so
/// is each one after the line "new". A line that begins with "#" says what follows.
pub(crate) fn check(rt: &impl Abort, alloc: Global, script: &str) -> Result<(), AllocError> {
    let mut parts = new_parts();
    let wrong = first_wrong(&mut parts, alloc, script)?;
    assert_eq!(rt; wrong.as_str(), "");
    Ok(())
}

impl TakesCalls for Parts {
    /// Makes a call on a part.
    fn take(&mut self, part: &str, call: Call<'_>, told: &mut String) -> Result<(), AllocError> {
        match part {
            "track" => tracks::take(&mut self.track, call, told),
            "ack" => acks::take(&mut self.end, call, told),
            "channel" => channels::take(call, told),
            "cell" => cells::take(call, told),
            "new" => self.begin(),
            "#" => Ok(()),
            _ => told.push_str(" which part?"),
        }
    }
}

impl Parts {
    /// The link is a new one.
    fn begin(&mut self) -> Result<(), AllocError> {
        *self = new_parts();
        Ok(())
    }
}
