//! The entries of notes, one by one.
ghost use Rattle.std.specs.Prelude.{◌≡◌};
ghost use Rattle.journal.specs.declared.entries.Entry.TheVariants.{Up, Opened, Shut, Sent, Took};
ghost use Rattle.journal.specs.declared.entries.Entry.TheVariants.{Enter, Applied, Began};
ghost use Rattle.journal.specs.declared.entries.Entry.TheVariants.{Refused, Done};

use ble_base::{ErrCode, EventNo, Kind, Role, Side};
use journal::{Entry, Octets};

/// The controller of the side sent a packet to its host.
pub(crate) fn up_entry(side: Side, octets: Octets) -> Entry
    ensures { result ≡ Up side octets }
{
    Entry::Up { side, octets }
}

/// The side opened the link under a handle.
pub(crate) fn opened_entry(side: Side, link: u64, handle: u16, role: Role) -> Entry
    ensures { result ≡ Opened side link handle role }
{
    Entry::Opened {
        side,
        link,
        handle,
        role,
    }
}

/// The side no longer holds the link.
pub(crate) fn shut_entry(side: Side, link: u64, reason: ErrCode) -> Entry
    ensures { result ≡ Shut side link reason }
{
    Entry::Shut { side, link, reason }
}

/// The side fixed a PDU with a payload as the next to be sent.
pub(crate) fn sent_entry(side: Side, link: u64, number: u64, llid: u8, body: Octets) -> Entry
    ensures { result ≡ Sent side link number llid body }
{
    Entry::Sent {
        side,
        link,
        number,
        llid,
        body,
    }
}

/// The side accepted a PDU with a payload.
pub(crate) fn took_entry(side: Side, link: u64, number: u64, llid: u8, body: Octets) -> Entry
    ensures { result ≡ Took side link number llid body }
{
    Entry::Took {
        side,
        link,
        number,
        llid,
        body,
    }
}

/// The side entered a connection event.
pub(crate) fn enter_entry(side: Side, link: u64, event: EventNo, channel: u8) -> Entry
    ensures { result ≡ Enter side link event.0 channel }
{
    Entry::Enter {
        side,
        link,
        event: event.0,
        channel,
    }
}

/// The side applied an indication from a connection event on.
pub(crate) fn applied_entry(side: Side, link: u64, number: u64, event: EventNo) -> Entry
    ensures { result ≡ Applied side link number event.0 }
{
    Entry::Applied {
        side,
        link,
        number,
        event: event.0,
    }
}

/// The side began a control procedure.
pub(crate) fn began_entry(side: Side, link: u64, kind: Kind) -> Entry
    ensures { result ≡ Began side link kind }
{
    Entry::Began { side, link, kind }
}

/// A control procedure of the side was refused.
pub(crate) fn refused_entry(side: Side, link: u64, kind: Kind, code: ErrCode) -> Entry
    ensures { result ≡ Refused side link kind code }
{
    Entry::Refused {
        side,
        link,
        kind,
        code,
    }
}

/// A control procedure of the side was completed.
pub(crate) fn done_entry(side: Side, link: u64, kind: Kind) -> Entry
    ensures { result ≡ Done side link kind }
{
    Entry::Done { side, link, kind }
}
