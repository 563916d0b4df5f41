//! The keys that a host has for its links (Core 5.2, volume 4 part E, sections 7.8.24 to 7.8.26).
ghost use Rattle.std.specs.Prelude.{◌≡◌, ◌≤◌, ◌%◌, ◌^◌, ℕ, List, reverse, Some};
ghost use Rattle.acl_banks.specs.declared.pieces.Piece.{Piece};
ghost use Rattle.open_links.specs.Hosts.{links_asked};
ghost use Rattle.open_links.specs.Keys.{links_keyed};
ghost use Rattle.open_links.specs.Knowing.{Knows as KnowsLinks};
ghost use Rattle.open_links.specs.OpenLinks.{Links};
ghost use Rattle.procedures.specs.procedure_values.declared.asks.Ask.TheVariants.{Encrypt};

use ble_base::SlotNo;
use controller_model::Moment;
use open_links::OpenLinks;
use procedures::Ask;

/// The octets of a key or of a block in the other order. Those of a host have the least significant
/// octet first, those of a link and of the cipher the most significant one.
pub fn turned(octets: &[u8; 16]) -> [u8; 16]
    ensures { result ≡ reverse octets.now }
{
    let mut turned = *octets;
    turned.reverse();
    turned
}

/// The host of a central asks for encryption with this key, which the link is to begin with. The
/// random number and the diversifier have eight and two octets.
#[tactic(auto, using(crate::proofs::AskedLinks::eight_octets, crate::proofs::AskedLinks::two_octets))]
pub(crate) fn ask_encryption<const L: usize, const T: usize, const R: usize>(
    links: &mut OpenLinks<L, T, R>,
    handle: u16,
    rand: u64,
    ediv: u16,
    key: &[u8; 16],
    moment: Moment,
)
    ensures knows { (known : Links) (received : List (ℕ × Piece))
        → KnowsLinks links.old known received → KnowsLinks links.new (links_asked handle
        (Encrypt (rand % 2 ^ 64) (ediv % 2 ^ 16) (reverse key.now) moment.skd_m moment.iv_m) known)
        received }
    ensures counts { (links.new.heard_to ≡ links.old.heard_to)
        × (links.new.unreported ≡ links.old.unreported) }
{
    let encrypt = Ask::Encrypt {
        rand,
        ediv,
        ltk: turned(key),
        skd_m: moment.skd_m,
        iv_m: moment.iv_m,
    };
    links.ask(handle, encrypt);
}

/// The host of a peripheral has this key for the link under a handle.
pub(crate) fn give_key<const L: usize, const T: usize, const R: usize>(
    links: &mut OpenLinks<L, T, R>,
    handle: u16,
    key: &[u8; 16],
    slot: SlotNo,
)
    requires { slot.0 ≤ 2 ^ 32 }
    ensures knows { (known : Links) (received : List (ℕ × Piece))
        → KnowsLinks links.old known received → KnowsLinks links.new
        (links_keyed handle (Some (reverse key.now)) slot.0 known) received }
    ensures counts { (links.new.heard_to ≡ links.old.heard_to)
        × (links.new.unreported ≡ links.old.unreported) }
{
    links.key(handle, Some(turned(key)), slot);
}
