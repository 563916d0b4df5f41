//! Scripts: calls on both ends of a link and on the ciphers, each with what it gives.
use crate::{ciphers, ends};
use ble_base::Role;
use enc_phase::{Clear, Phase};
use std::alloc::{AllocError, Global};
use std::process::Abort;
use test_words::{Call, TakesCalls, first_wrong};

/// Each line has a call, and after " =" what it gives. Both ends begin without encryption, and
/// again at a line "new". A line that begins with "#" says what follows.
pub(crate) fn check(rt: &impl Abort, alloc: Global, script: &str) -> Result<(), AllocError> {
    let mut ends = Ends {
        phases: Vec::new(alloc),
    };
    ends.begin()?;
    let wrong = first_wrong(&mut ends, alloc, script)?;
    assert_eq!(rt; wrong.as_str(), "");
    Ok(())
}

/// The central and the peripheral of a link.
#[derive(Drop)]
struct Ends {
    phases: Vec<Phase>,
}

impl TakesCalls for Ends {
    /// Makes a call on an end or on a cipher.
    fn take(&mut self, side: &str, call: Call<'_>, told: &mut String) -> Result<(), AllocError> {
        match side {
            "central" => self.on_end(0, call, told),
            "peripheral" => self.on_end(1, call, told),
            "cipher" => ciphers::take(call, told),
            "new" => self.begin(),
            "#" => Ok(()),
            _ => told.push_str(" which end?"),
        }
    }
}

impl Ends {
    /// Both ends are without encryption.
    fn begin(&mut self) -> Result<(), AllocError> {
        self.phases.clear();
        for role in [Role::Central, Role::Peripheral] {
            self.phases.push(Phase::Clear(Clear::new(role)))?;
        }
        Ok(())
    }

    /// Makes a call on the end at this place.
    fn on_end(
        &mut self,
        place: usize,
        call: Call<'_>,
        told: &mut String,
    ) -> Result<(), AllocError> {
        match self.phases.as_mut_slice().get_mut(place) {
            None => told.push_str(" which end?"),
            Some(phase) => ends::take(phase, call, told),
        }
    }
}
