//! Procedures that exclude each other (Core 5.2, volume 6 part B, section 5.3).
ghost use Rattle.std.specs.Prelude.{◌≡◌};
ghost use Rattle.procedure_stages.specs.Collisions.{is_exclusive, collision_code, collision};
ghost use Rattle.procedure_stages.specs.Collisions.{is_encrypt, peer_lets};

use crate::stages::Progress;
use ble_base::{ErrCode, Kind};
use procedure_values::asks::is_same_kind;

/// Whether a procedure of this kind excludes the others of these kinds.
fn is_exclusive(kind: Kind) -> bool
    ensures { result ≡ is_exclusive kind }
{
    matches!(kind, Kind::Update | Kind::Request | Kind::Map | Kind::Phy)
}

/// The error of two procedures that collide, of these kinds.
fn collision_code(p: Kind, q: Kind) -> ErrCode
    ensures { result ≡ collision_code p q }
{
    if is_same_kind(p, q) {
        ErrCode::LL_PROCEDURE_COLLISION
    } else {
        ErrCode::DIFFERENT_TRANSACTION_COLLISION
    }
}

/// The error of a procedure of the peer that collides with that of this end, if it does.
pub fn collision(own: Option<Kind>, peer: Kind) -> Option<ErrCode>
    ensures { result ≡ collision own peer }
{
    let own = own?;
    if is_exclusive(own) && is_exclusive(peer) {
        Some(collision_code(own, peer))
    } else {
        None
    }
}

/// Whether the kind is an encryption.
fn is_encrypt(kind: Kind) -> bool
    ensures { result ≡ is_encrypt kind }
{
    matches!(kind, Kind::Encrypt)
}

/// Whether the peer's procedures let a kind begin.
pub fn peer_lets(progress: Progress, kind: Kind) -> bool
    ensures { result ≡ peer_lets progress kind }
{
    let has_peer = progress.has_peer();
    !(is_exclusive(kind) && has_peer)
        && !(is_encrypt(kind) && (has_peer || progress.is_encrypting()))
}
