//! A start, a pause and a restart with the sample data of the standard, the table of what a phase
//! lets an end take, and what no phase but Clear and Secure can do.

use crate::ends::SESSION;
use crate::scripts::check;
use ble_base::Role;
use enc_phase::laws::*;
use enc_phase::{Asked, Clear, HalfClear, HalfKeyed, Pausing, Phase, Secure};
use std::alloc::AllocError;

const PHASES: &str = "\
# Seals and opens the samples.
# LL_START_ENC_RSP of each end with counter 0, and then the data of the sample with counter 1. The
# counts are those of the payloads that an end sent and opened.
central quiet = yes
central next
central next
peripheral next
peripheral next
central quiet = no
central counts = 0 0
peripheral counts = 0 0
central send 0f 06 = 9fcda7f448
central counts = 1 0
peripheral try 0f 9fcda7f448 = yes
peripheral open 0f 9fcda7f448 = 06
peripheral counts = 0 1
peripheral next
peripheral send 07 06 = a34c13a415
central open 07 a34c13a415 = 06
central next
central counts = 1 1
peripheral counts = 1 1
central data 0e 1700636465666768696a6b6c6d6e6f707131323334353637383930 = \
    7a70d66415226df26b17839a060405596bd6564f796b5b9ce6ff32f75a6d33
peripheral data 06 170037363534333231304142434445464748494a4b4c4d4e4f5051 = \
    f38881e7bd94c9c369b9a66846dd4786aa8c39ce540d0dae3adcdf89b96088
peripheral open 0e 7a70d66415226df26b17839a060405596bd6564f796b5b9ce6ff32f75a6d33 = \
    1700636465666768696a6b6c6d6e6f707131323334353637383930
central open 06 f38881e7bd94c9c369b9a66846dd4786aa8c39ce540d0dae3adcdf89b96088 = \
    170037363534333231304142434445464748494a4b4c4d4e4f5051
new
# Refuses the forged.
# One payload from the same end; and one that comes again, one with another last octet, and one
# that is too short.
central next
central next
peripheral next
peripheral next
central open 0f 9fcda7f448 = forged
peripheral open 0f 9fcda7f448 = 06
peripheral next
peripheral try 0f 9fcda7f448 = no
peripheral open 0f 9fcda7f448 = forged
peripheral try 0f 9fcda7f449 = no
peripheral open 0f 9fcda7f449 = forged
peripheral try 0f 9fcda7f4 = no
peripheral open 0f 9fcda7f4 = forged
peripheral counts = 0 1
new
# Pauses and restarts.
# While encryption pauses, the peripheral sends sealed and receives clear, as LL_PAUSE_ENC_RSP; a
# restart begins with counters of 0.
central next
central next
peripheral next
peripheral next
central send 0f 06 = 9fcda7f448
peripheral open 0f 9fcda7f448 = 06
central next
central next
peripheral next
peripheral next
central counts = 1 0
peripheral counts = 0 0
peripheral send 07 06 = a34c13a415
central open 07 a34c13a415 = 06
peripheral open 03 0b = 0b
central next
peripheral next
central send 03 0b = 0b
peripheral open 03 0b = 0b
central counts = 0 0
central next
central paused = yes
central next
central send 0f 06 = 9fcda7f448
peripheral try 03 03 = yes
new
# A refused start is clear again.
# The phase is Clear again, and nothing was sealed.
central next
central paused = no
central refuse
central quiet = yes
central clear = yes
new
# Takes what the table lets a phase take.
# The PDUs that an end may take in its phases, by letters: one that is empty (e), data (d and D),
# LL_TERMINATE_IND (t), the PDUs of encryption by their opcodes, rejects (r, R and o),
# LL_VERSION_IND (v), requests (f, p and q), and a control PDU that cannot be read (u). Both ends
# go from Clear to Asked, HalfKeyed, Secure, Pausing, HalfClear and Asked again.
central takes = edDt3456ABrRvfpoqu
central next
central takes = edDt4rRvfp
central next
central takes = et6
central next
central takes = edDt3456ABrRvfpoqu
central next
central takes = edDtBvfp
central next
central takes = et
central next
central takes = edDt4vfp
peripheral takes = edDt3456ABrRvfpoqu
peripheral next
peripheral takes = et
peripheral next
peripheral takes = et6
peripheral next
peripheral takes = edDt3456ABrRvfpoqu
peripheral next
peripheral takes = etB
peripheral next
peripheral takes = et3
peripheral next
peripheral takes = et
new
# Keeps what it saw.
# LL_ENC_RSP comes once and ends the data; the first PDU of the peripheral's procedure comes once.
central next
central saw 3 04000000000000000000000000
central takes = et5rRvfp
central saw 3 160101
central takes = et5rR
new
# Keeps what it saw in a pause.
# It comes once over the pause too.
central next
central next
central next
central next
central takes = edDtBvfp
central saw 3 160101
central takes = edDtB
central next
central next
central takes = edDt4
new
# Encryption pdus without meaning are unknown.
# The PDUs that are answered with LL_UNKNOWN_RSP, in Clear and in Secure.
central unknown = 3A
peripheral unknown = 45A
central next
central next
central next
peripheral next
peripheral next
peripheral next
central unknown = 3A
peripheral unknown = 345
";

#[test]
fn phases_of_both_ends(rt: HostRuntime) -> Result<(), AllocError> {
    check(&rt, rt.alloc(), PHASES)?;
    counters_rise_by_one();
    sent_is_opened();
    sealing_follows_what_was_taken();
    leaving_changes_no_sealing();
    clear_directions_have_counter_0();
    Ok(())
}

/// A central that asked for encryption.
fn asked() -> Asked {
    Clear::new(Role::Central).ask()
}

/// A central that has the key.
fn half_keyed() -> HalfKeyed {
    asked().key(SESSION)
}

/// A central that is encrypted.
fn secure() -> Secure {
    half_keyed().confirm()
}

/// A central that asked for a pause.
fn pausing() -> Pausing {
    secure().pause()
}

/// What a method answers that a type does not have.
struct NotThere;

/// `send_data` of the phases that send no data. Rust takes a method of the type itself first, with
/// its two arguments; so the call in the test is refused if one of these types gets that method.
trait SendsNoData {
    fn send_data(&mut self) -> NotThere;
}

/// `clone` of the phases. With a `clone` of the type too, the calls in the test are refused as
/// ambiguous; so none of these types is `Copy`, and none is used after its transition.
trait IsUsedOnce {
    fn clone(&self) -> NotThere;
}

impl SendsNoData for Asked {
    fn send_data(&mut self) -> NotThere {
        NotThere
    }
}

impl SendsNoData for HalfKeyed {
    fn send_data(&mut self) -> NotThere {
        NotThere
    }
}

impl SendsNoData for Pausing {
    fn send_data(&mut self) -> NotThere {
        NotThere
    }
}

impl SendsNoData for HalfClear {
    fn send_data(&mut self) -> NotThere {
        NotThere
    }
}

impl IsUsedOnce for Clear {
    fn clone(&self) -> NotThere {
        NotThere
    }
}

impl IsUsedOnce for Asked {
    fn clone(&self) -> NotThere {
        NotThere
    }
}

impl IsUsedOnce for HalfKeyed {
    fn clone(&self) -> NotThere {
        NotThere
    }
}

impl IsUsedOnce for Secure {
    fn clone(&self) -> NotThere {
        NotThere
    }
}

impl IsUsedOnce for Pausing {
    fn clone(&self) -> NotThere {
        NotThere
    }
}

impl IsUsedOnce for HalfClear {
    fn clone(&self) -> NotThere {
        NotThere
    }
}

impl IsUsedOnce for Phase {
    fn clone(&self) -> NotThere {
        NotThere
    }
}

#[test]
fn only_clear_and_secure_send_data() {
    let NotThere = asked().send_data();
    let NotThere = half_keyed().send_data();
    let NotThere = pausing().send_data();
    let NotThere = pausing().unlock().send_data();
}

#[test]
fn no_phase_is_copied() {
    let NotThere = Clear::new(Role::Central).clone();
    let NotThere = asked().clone();
    let NotThere = half_keyed().clone();
    let NotThere = secure().clone();
    let NotThere = pausing().clone();
    let NotThere = pausing().unlock().clone();
    let NotThere = Phase::Secure(secure()).clone();
}
