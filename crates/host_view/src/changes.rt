//! How an accepted command changes the view.
ghost use Rattle.std.specs.Prelude.{◌≡◌};
ghost use Rattle.host_view.specs.Changes.{changed_at, changed_by, on_link, with_asked};

use crate::links::{Asked, Link, update_kind};
use crate::view::HostView;
use ble_base::Kind;

impl Asked {
    /// The same, with this procedure asked for or not.
    pub(crate) fn with(self, kind: Kind, value: bool) -> Asked
        ensures { result ≡ with_asked kind value self }
    {
        let mut asked = self;
        match kind {
            Kind::Update => asked.update = value,
            Kind::Request => asked.request = value,
            Kind::Map => {}
            Kind::Phy => asked.phy = value,
            Kind::Features => asked.features = value,
            Kind::Version => asked.version = value,
            Kind::Length => asked.length = value,
            Kind::Encrypt => asked.encrypt = value,
        }
        asked
    }
}

/// Something that happens to a link.
#[derive(Clone, Copy)]
pub(crate) enum LinkChange {
    /// The host's Disconnect was accepted.
    Disconnecting,
    /// The host asked for a procedure.
    Asks(Kind),
    /// The host asked for an update of the connection.
    AsksUpdate,
    /// A procedure is refused.
    Answered(Kind),
    /// A procedure is done: that of encryption once the central is encrypted.
    Completed(Kind),
    /// The host is asked for a key, or has none.
    Key { waits: bool },
    /// The host gave a key.
    Keyed,
    /// The host is asked for connection parameters, or answered.
    Parameters { waits: bool },
    /// LL_START_ENC_RSP was taken: a peripheral whose host gave a key is encrypted from then on.
    Encrypted,
    /// The host was handed a packet.
    HandedUp,
    /// The host has taken this number of packets.
    Taken(u16),
}

impl LinkChange {
    /// The link after this happened to it.
    fn changed(self, link: Link) -> Link
        ensures { result ≡ changed_by self link }
    {
        let mut changed = link;
        match self {
            LinkChange::Disconnecting => changed.disconnecting = true,
            LinkChange::Asks(kind) => changed.asked = changed.asked.with(kind, true),
            LinkChange::AsksUpdate => {
                changed.asked = changed.asked.with(update_kind(changed.role), true);
            }
            LinkChange::Answered(kind) => changed.asked = changed.asked.with(kind, false),
            LinkChange::Completed(kind) => {
                changed.asked = changed.asked.with(kind, false);
                changed.encrypted = matches!(kind, Kind::Encrypt) || changed.encrypted;
            }
            LinkChange::Key { waits } => changed.waits_for_key = waits,
            LinkChange::Keyed => {
                changed.waits_for_key = false;
                changed.keyed = true;
            }
            LinkChange::Parameters { waits } => changed.waits_for_parameters = waits,
            LinkChange::Encrypted => {
                changed.encrypted = changed.keyed || changed.encrypted;
                changed.keyed = false;
            }
            LinkChange::HandedUp => changed.outstanding = changed.outstanding.saturating_add(1),
            LinkChange::Taken(count) => {
                changed.outstanding = changed.outstanding.saturating_sub(count);
            }
        }
        changed
    }
}

/// Makes a change of the link with this handle, if it is open.
pub(crate) fn change_links(links: &mut [Option<Link>; 6], handle: u16, change: LinkChange)
    ensures { links.new ≡ changed_at handle (changed_by change) links.old }
{
    let place = usize::from(handle);
    if place < links.len() {
        links[place] = links[place].map(|link| change.changed(link));
    }
}

impl HostView {
    /// Makes a change of the link with this handle, if it is open.
    pub(crate) fn change_link(&mut self, handle: u16, change: LinkChange)
        ensures { self.new ≡ on_link handle (changed_by change) self.old }
    {
        change_links(&mut self.links, handle, change);
    }
}
