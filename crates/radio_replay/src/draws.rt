//! Octets that are drawn from a number.
ghost use Rattle.std.specs.Prelude.{◌≡◌, ◌++◌, OnOk};
ghost use Rattle.radio_replay.specs.RandomOctets.{next_state, octet_of, octets_from, state_after};

use std::alloc::AllocError;

/// Draws one octet.
fn draw(state: &mut u32) -> u8
    ensures state { state.new ≡ next_state state.old }
    ensures octet { result ≡ octet_of state.new }
{
    *state = ((1_664_525 * u64::from(*state) + 1_013_904_223) % (1 << 32)) as u32;
    (*state >> 24) as u8
}

/// Draws this number of octets, and adds them.
pub(crate) fn put_drawn(octets: &mut Vec<u8>, state: &mut u32, count: u16) -> Result<(), AllocError>
    ensures octets { OnOk result
        (octets.new.items ≡ octets.old.items ++ octets_from state.old count) }
    ensures state { OnOk result (state.new ≡ state_after state.old count) }
{
    for drawn in 0..count {
        octets.push(draw(state))?;
    }
    Ok(())
}
