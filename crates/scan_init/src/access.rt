//! The access addresses of links.
ghost use Rattle.std.specs.Prelude.{◌≡◌, ◌<◌, ◌≤◌, ◌+◌, ◌/◌, ◌%◌, ◌^◌, ℕ, IfSome, IfNone};
ghost use Rattle.std.specs.Prelude.{not, false};
ghost use Rattle.scan_init.specs.Access.{HasNoAccess, IsNextAccess, advertising_distance};
ghost use Rattle.scan_init.specs.Access.{access_at, bit_count};
ghost use Rattle.scan_init.specs.Access.{has_equal_octets, has_seven_equal_bits, is_valid_access};
ghost use Rattle.scan_init.specs.Access.{next_access_of, transitions_of};

use air_frame::ADVERTISING_ACCESS;

/// How many places an access address of 32 bits has between two bits.
const TRANSITION_PLACES: u32 = 31;

/// The most transitions between its bits.
const MOST_TRANSITIONS: u32 = 24;

/// The place of the first transition between its six most significant bits.
const HIGH_PLACE: u32 = 26;

/// The least transitions between these bits.
const LEAST_HIGH_TRANSITIONS: u32 = 2;

/// In how many places seven bits in a row may begin.
const RUN_PLACES: u32 = 26;

/// The places at which a bit differs from the next one, each as a bit.
fn transitions(access: u32) -> u32
    ensures { result ≡ transitions_of access }
{
    (access ^ (access >> 1)) % (1 << TRANSITION_PLACES)
}

/// Whether seven consecutive bits are equal.
fn has_seven_equal_bits(access: u32) -> bool
    ensures { result ≡ has_seven_equal_bits access }
{
    let transitions = transitions(access);
    (0..RUN_PLACES).any(|place| (transitions >> place) % (1 << 6) == 0)
}

/// How many bits are 1.
fn bit_count(bits: u32) -> u32
    ensures { result ≡ bit_count bits }
{
    bits.count_ones()
}

/// How many bits are not those of the advertising channels.
fn advertising_distance(access: u32) -> u32
    ensures { result ≡ advertising_distance access }
{
    bit_count(access ^ ADVERTISING_ACCESS)
}

/// Whether all four octets are equal.
fn has_equal_octets(access: u32) -> bool
    ensures { result ≡ has_equal_octets access }
{
    access == 0x0101_0101 * (access % (1 << 8))
}

/// Whether a link may have this access address.
#[tactic(auto, unfolding(crate::specs::Access::is_valid_access))]
fn is_valid_access(access: u32) -> bool
    ensures { result ≡ is_valid_access access }
{
    bit_count(transitions(access) >> HIGH_PLACE) >= LEAST_HIGH_TRANSITIONS
        && bit_count(transitions(access)) <= MOST_TRANSITIONS
        && !has_equal_octets(access)
        && advertising_distance(access) > 1
        && !has_seven_equal_bits(access)
}

/// The highest place from which on seven bits are equal.
fn run_place(access: u32) -> Option<u32>
    ensures { IfSome result (λ place. (place < 26)
        × (transitions_of access / 2 ^ place % 2 ^ 6 ≡ 0)) }
{
    let transitions = transitions(access);
    (0..RUN_PLACES)
        .rev()
        .find(|place| (transitions >> *place) % (1 << 6) == 0)
}

/// The place from which on its bits show that an address is not valid: that of the six most
/// significant ones where they have too few transitions, else the highest from which on seven are
/// equal, else 0.
fn deciding_place(access: u32) -> u32
    ensures place { result ≤ 26 }
    ensures decides { is_valid_access access ≡ false
        → (other : ℕ) → other / 2 ^ result ≡ access / 2 ^ result → is_valid_access other ≡ false }
{
    if bit_count(transitions(access) >> HIGH_PLACE) < LEAST_HIGH_TRANSITIONS {
        return HIGH_PLACE;
    }
    run_place(access).unwrap_or(0)
}

/// How far it is to the next address with other bits from the deciding place on. From an address
/// that is not valid on, none of that many is valid.
fn step_over(access: u32) -> u64
    ensures further { 1 ≤ result }
    ensures within { access + result ≤ 2 ^ 32 }
    ensures none { is_valid_access access ≡ false
        → (other : ℕ) → access ≤ other → other < access + result → is_valid_access other ≡ false }
{
    let size = 1 << deciding_place(access);
    size - u64::from(access) % size
}

/// The first valid access address for a link whose distance from the cursor is at least what was
/// travelled, and the distance after it, from which to search for the next. Distances are upwards,
/// modulo 2^32; none is left where no valid one comes before the distance reaches 2^32. (Core 5.2,
/// volume 6 part B, section 2.1.2; that they are taken in this order is our choice.) Addresses that
/// are not valid by the same bits are stepped over at once: no search takes more than 193 steps.
pub fn next_access(cursor: u32, travelled: u64) -> Option<(u32, u64)>
    ensures value { result ≡ next_access_of cursor travelled }
    ensures some { IfSome result (λ next. IsNextAccess cursor travelled next.0 next.1) }
    ensures none { IfNone result (HasNoAccess cursor travelled) }
{
    first_valid(cursor, travelled)
}

/// The access address at this distance from the cursor.
fn access_at(cursor: u32, travel: u64) -> u32
    requires { travel < 2 ^ 32 }
    ensures { result ≡ access_at cursor travel }
{
    cursor.wrapping_add(travel as u32)
}

/// The value of `next_access`.
fn first_valid(cursor: u32, travelled: u64) -> Option<(u32, u64)>
    ensures { result ≡ next_access_of cursor travelled }
{
    let mut travel = travelled;
    while travel < 1 << 32 {
        let access = access_at(cursor, travel);
        if is_valid_access(access) {
            return Some((access, travel + 1));
        }
        travel += step_over(access);
    }
    None
}
