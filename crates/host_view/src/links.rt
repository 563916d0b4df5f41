//! The links that are open, as the host knows them.
ghost use Rattle.std.specs.Prelude.{◌≡◌, not};
ghost use Rattle.host_view.specs.Links.{link_in, is_asked, is_central_role, update_kind, link_has};
ghost use Rattle.host_view.specs.Links.{was_encrypted};

use ble_base::{Address, Kind, Role};

/// Which control procedures the host asked for on a link: those that are neither done nor refused
/// yet. A map of channels is set for all links at once, and is not asked for on one.
#[derive(Clone, Copy, Debug, PartialEq, Eq, Default)]
pub struct Asked {
    pub update: bool,
    pub request: bool,
    pub phy: bool,
    pub features: bool,
    pub version: bool,
    pub length: bool,
    pub encrypt: bool,
}

impl Asked {
    /// Whether the host asked for this procedure.
    pub(crate) fn has(self, kind: Kind) -> bool
        ensures { result ≡ is_asked kind self }
    {
        match kind {
            Kind::Update => self.update,
            Kind::Request => self.request,
            Kind::Map => false,
            Kind::Phy => self.phy,
            Kind::Features => self.features,
            Kind::Version => self.version,
            Kind::Length => self.length,
            Kind::Encrypt => self.encrypt,
        }
    }
}

/// An open link.
#[derive(Clone, Copy, Debug, PartialEq, Eq, Default)]
pub struct Link {
    pub role: Role,
    /// The addresses of both ends as they are on the air.
    pub own: Address,
    pub peer: Address,
    /// The host's Disconnect was accepted.
    pub disconnecting: bool,
    pub asked: Asked,
    /// The host was asked for a key, and has not answered.
    pub waits_for_key: bool,
    /// The host was asked for connection parameters, and has not answered.
    pub waits_for_parameters: bool,
    /// The host gave a key, and encryption has not started with it.
    pub keyed: bool,
    /// Encryption started on it before (Core 5.2, volume 6 part B, section 5.1.3.1).
    pub encrypted: bool,
    /// How many ACL packets the host was handed and has not returned, while host flow control is
    /// on.
    pub outstanding: u16,
}

/// Whether an end with this role is the central of its link.
pub(crate) fn is_central(role: Role) -> bool
    ensures { result ≡ is_central_role role }
{
    match role {
        Role::Central => true,
        Role::Peripheral => false,
    }
}

/// The procedure that LE Connection Update starts at an end with this role.
pub(crate) fn update_kind(role: Role) -> Kind
    ensures { result ≡ update_kind role }
{
    match role {
        Role::Central => Kind::Update,
        Role::Peripheral => Kind::Request,
    }
}

/// The open link with this handle.
pub(crate) fn find_link(links: &[Option<Link>; 6], handle: u16) -> Option<Link>
    ensures { result ≡ link_in links.now handle }
{
    links.get(usize::from(handle)).copied().flatten()
}

/// Whether the host asked for this procedure on the link.
pub(crate) fn is_asked(link: Option<Link>, kind: Kind) -> bool
    ensures { result ≡ link_has link (λ l. is_asked kind l.asked) }
{
    match link {
        Some(link) => link.asked.has(kind),
        None => false,
    }
}

/// Whether LE Connection Update was asked for on the link.
pub(crate) fn is_update_asked(link: Option<Link>) -> bool
    ensures { result ≡ link_has link (λ l. is_asked (update_kind l.role) l.asked) }
{
    match link {
        Some(link) => link.asked.has(update_kind(link.role)),
        None => false,
    }
}

/// Whether the link is one of a peripheral.
pub(crate) fn is_peripheral(link: Option<Link>) -> bool
    ensures { result ≡ link_has link (λ l. not (is_central_role l.role)) }
{
    match link {
        Some(link) => !is_central(link.role),
        None => false,
    }
}

/// Whether no key was asked for on the link.
pub(crate) fn waits_for_no_key(link: Option<Link>) -> bool
    ensures { result ≡ link_has link (λ l. not l.waits_for_key) }
{
    match link {
        Some(link) => !link.waits_for_key,
        None => false,
    }
}

/// Whether no connection parameters were asked for on the link.
pub(crate) fn waits_for_no_parameters(link: Option<Link>) -> bool
    ensures { result ≡ link_has link (λ l. not l.waits_for_parameters) }
{
    match link {
        Some(link) => !link.waits_for_parameters,
        None => false,
    }
}

/// Whether encryption started on the link under this handle before.
pub(crate) fn was_encrypted(links: &[Option<Link>; 6], handle: u16) -> bool
    ensures { result ≡ was_encrypted handle links.now }
{
    match find_link(links, handle) {
        Some(link) => link.encrypted,
        None => false,
    }
}
