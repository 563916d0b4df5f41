//! How what a controller notes of itself changes the view.
ghost use Rattle.std.specs.Prelude.{◌≡◌, ◌<◌, slice_index, slice_set};
ghost use Rattle.host_view.specs.Noted.{after_packet, encrypted_if, is_le_event, is_start_rsp, opened_link, two_octets, view_noted, with_link, without_link};

use crate::changes::LinkChange;
use crate::links::{Asked, Link};
use crate::view::HostView;
use ble_base::{Address, Note, Role};

/// The H4 indicators of ACL data and of an event (Core 5.2, volume 4 part A, section 2).
const ACL_DATA: u8 = 2;

const EVENT: u8 = 4;

/// The code of LE events (Core 5.2, volume 4 part E, section 7.7.65).
const LE_META: u8 = 0x3E;

/// The subevent codes of LE Long Term Key Request and LE Remote Connection Parameter Request.
const KEY_REQUEST: u8 = 0x05;

const PARAMETER_REQUEST: u8 = 0x06;

/// The LLID of control PDUs, and the opcode of LL_START_ENC_RSP (Core 5.2, volume 6 part B, section
/// 2.4.2).
const CONTROL: u8 = 3;

const START_ENC_RSP: u8 = 0x06;

/// The octet at this place of a packet, 0 past its end.
fn octet_at(octets: &[u8], place: usize) -> u8
    ensures { result ≡ slice_index octets.now place }
{
    octets.get(place).copied().unwrap_or(0)
}

/// The number of two octets from this place of a packet on, the least significant octet first.
fn two_octets(octets: &[u8], place: usize) -> u16
    requires { place < 260 }
    ensures { result ≡ two_octets place octets.now }
{
    u16::from_le_bytes([octet_at(octets, place), octet_at(octets, place + 1)])
}

/// Whether a packet to the host is an LE event with this subevent code.
fn is_le_event(octets: &[u8], code: u8) -> bool
    ensures { result ≡ is_le_event code octets.now }
{
    octet_at(octets, 0) == EVENT && octet_at(octets, 1) == LE_META && octet_at(octets, 3) == code
}

/// Whether a PDU is LL_START_ENC_RSP.
fn is_start_rsp(llid: u8, octets: &[u8]) -> bool
    ensures { result ≡ is_start_rsp llid octets.now }
{
    match octets {
        [opcode] => llid == CONTROL && *opcode == START_ENC_RSP,
        _ => false,
    }
}

impl Link {
    /// A link as it is opened: nothing was asked for on it yet.
    fn new(role: Role, own: Address, peer: Address) -> Link
        ensures { result ≡ opened_link role own peer }
    {
        Link {
            role,
            own,
            peer,
            disconnecting: false,
            asked: Asked::default(),
            waits_for_key: false,
            waits_for_parameters: false,
            keyed: false,
            encrypted: false,
            outstanding: 0,
        }
    }
}

impl HostView {
    /// Takes a packet that the host was handed.
    fn hand_up(&mut self, octets: &[u8])
        ensures { self.new ≡ after_packet octets.now self.old }
    {
        if octet_at(octets, 0) == ACL_DATA {
            if self.flow.on {
                self.change_link(two_octets(octets, 1) % 4096, LinkChange::HandedUp);
            }
        } else if is_le_event(octets, KEY_REQUEST) {
            self.change_link(two_octets(octets, 4), LinkChange::Key { waits: true });
        } else if is_le_event(octets, PARAMETER_REQUEST) {
            self.change_link(
                two_octets(octets, 4),
                LinkChange::Parameters { waits: true },
            );
        }
    }

    /// Puts a link, or none, under this handle; past the last place it changes nothing.
    fn set_link(&mut self, handle: u16, link: Option<Link>)
        ensures { self.new ≡ record self.old { links = slice_set self.old.links handle link } }
    {
        let place = usize::from(handle);
        if place < self.links.len() {
            self.links[place] = link;
        }
    }

    /// Takes a link that was opened.
    fn open(&mut self, handle: u16, link: Link)
        ensures { self.new ≡ with_link handle link self.old }
    {
        match link.role {
            Role::Central => self.initiating = None,
            Role::Peripheral => self.advertising.on = false,
        }
        self.set_link(handle, Some(link));
    }

    /// Takes that the link with this handle ended.
    fn shut(&mut self, handle: u16)
        ensures { self.new ≡ without_link handle self.old }
    {
        self.set_link(handle, None);
    }

    /// Takes that LL_START_ENC_RSP was taken on the link with this handle, or not.
    fn encrypt_if(&mut self, starts: bool, handle: u16)
        ensures { self.new ≡ encrypted_if starts handle self.old }
    {
        if starts {
            self.change_link(handle, LinkChange::Encrypted);
        }
    }

    /// Takes a note of the controller.
    #[tactic(auto, unfolding(crate::specs::Noted::view_noted))]
    pub fn note(&mut self, note: &Note)
        ensures { self.new ≡ view_noted self.old note.now }
    {
        match note {
            Note::Up(octets) => self.hand_up(octets.as_slice()),
            Note::Opened {
                handle,
                role,
                own,
                peer,
            } => self.open(*handle, Link::new(*role, *own, *peer)),
            Note::Shut { handle, .. } => self.shut(*handle),
            Note::Refused { handle, kind, .. } => {
                self.change_link(*handle, LinkChange::Answered(*kind));
            }
            Note::Done { handle, kind } => self.change_link(*handle, LinkChange::Completed(*kind)),
            Note::Took {
                handle,
                llid,
                body,
                ..
            } => self.encrypt_if(is_start_rsp(*llid, body.as_slice()), *handle),
            Note::Sent { .. } | Note::Enter { .. } | Note::Applied { .. } | Note::Began { .. } => {}
        }
    }
}
