//! The changes of a phase: each consumes the phase before it.
ghost use Rattle.std.specs.Prelude.{◌≡◌};
ghost use Rattle.keyed_control.specs.KeyedSteps.{end_started};
ghost use Rattle.enc_phase.specs.declared.facts.PhaseFacts.{PhaseFacts};
ghost use Rattle.enc_phase.specs.declared.facts.Transition.{Transition};
ghost use Rattle.enc_phase.specs.Sealing.{clear_end, end_of};
ghost use Rattle.phased_end.specs.Changes.{end_moved};

use ble_base::Role;
use enc_phase::{Clear, Phase, Session};

/// The phase of a new link at the end with this role.
pub(crate) fn first_phase(role: Role) -> Phase
    ensures { end_of result ≡ clear_end role PhaseFacts.Clear }
{
    Phase::Clear(Clear::new(role))
}

/// The phase, with one of a new link in its place.
fn taken_out(phase: &mut Phase) -> Phase
    ensures { result ≡ phase.old }
{
    let role = phase.role();
    std::mem::replace(phase, first_phase(role))
}

/// A session begins, where one may.
pub(crate) fn start(phase: &mut Phase, session: Session)
    ensures { end_of phase.new ≡ end_started session (end_of phase.old) }
{
    *phase = match taken_out(phase) {
        Phase::Asked(asked) => Phase::HalfKeyed(asked.key(session)),
        other => other,
    };
}

/// Encryption is asked for, in Clear or after a pause.
pub(crate) fn ask(phase: &mut Phase)
    ensures { end_of phase.new ≡ end_moved Transition.Ask (end_of phase.old) }
{
    *phase = match taken_out(phase) {
        Phase::Clear(clear) => Phase::Asked(clear.ask()),
        Phase::HalfClear(half_clear) => Phase::Asked(half_clear.ask()),
        other => other,
    };
}

/// Encryption is refused, where it can be.
pub(crate) fn refuse(phase: &mut Phase)
    ensures { end_of phase.new ≡ end_moved Transition.Refuse (end_of phase.old) }
{
    *phase = match taken_out(phase) {
        Phase::Asked(asked) if !asked.after_pause() => Phase::Clear(asked.refuse()),
        other => other,
    };
}

/// Encryption has started.
pub(crate) fn confirm(phase: &mut Phase)
    ensures { end_of phase.new ≡ end_moved Transition.Confirm (end_of phase.old) }
{
    *phase = match taken_out(phase) {
        Phase::HalfKeyed(half_keyed) => Phase::Secure(half_keyed.confirm()),
        other => other,
    };
}

/// Encryption is to pause.
pub(crate) fn pause(phase: &mut Phase)
    ensures { end_of phase.new ≡ end_moved Transition.Pause (end_of phase.old) }
{
    *phase = match taken_out(phase) {
        Phase::Secure(secure) => Phase::Pausing(secure.pause()),
        other => other,
    };
}

/// The session ends.
pub(crate) fn unlock(phase: &mut Phase)
    ensures { end_of phase.new ≡ end_moved Transition.Unlock (end_of phase.old) }
{
    *phase = match taken_out(phase) {
        Phase::Pausing(pausing) => Phase::HalfClear(pausing.unlock()),
        other => other,
    };
}
