//! What accepted commands return (Core 5.2, volume 4 part E, sections 7.3, 7.4 and 7.8).
ghost use Rattle.std.specs.Prelude.{◌≡◌, ◌≤◌, ◌<◌, ◌^◌, ℕ, List, ◌++◌, length};
ghost use Rattle.acl_banks.specs.declared.pieces.Piece.{Piece};
ghost use Rattle.open_links.specs.Knowing.{Knows as KnowsLinks};
ghost use Rattle.open_links.specs.OpenLinks.{Links, link_at};
ghost use Rattle.controller_model.specs.Answers.{encrypted, map_of, next_word, returned};
ghost use Rattle.controller_model.specs.Facts.{Setup, Facts};
ghost use Rattle.controller.specs.Knowing.{IsAt};

use crate::controllers::Controller;
use aes_block::Aes;
use ble_base::PAYLOAD_OCTETS;
use hci_cmd::Command;
use host_notes::{Fields, put_longest, turned};
use host_view::ACCEPT_LIST_SIZE;
use open_links::OpenLinks;
use wire_fields::{put_octets, put_u16, put_u40, put_u64};

/// What Read Local Version Information returns (section 7.4.1): version 5.2 and revision 1 of HCI,
/// version 5.2 of the link layer, the company FFFF and subversion 1 (our choice).
static VERSION: [u8; 8] = [0x0B, 0x01, 0x00, 0x0B, 0xFF, 0xFF, 0x01, 0x00];

/// What Read Local Supported Features returns (section 7.4.3): LE alone.
static FEATURES: [u8; 8] = [0x00, 0x00, 0x00, 0x00, 0x60, 0x00, 0x00, 0x00];

/// What LE Read Local Supported Features returns (section 7.8.3): encryption, connection parameters
/// request, extended reject, peripheral-initiated features exchange, data length extension and
/// channel selection algorithm 2 (volume 6 part B, section 4.6).
static LE_FEATURES: [u8; 8] = [0x2F, 0x40, 0x00, 0x00, 0x00, 0x00, 0x00, 0x00];

/// The code of LE 1M (volume 4 part E, section 7.8.47).
const LE_1M: u8 = 1;

/// The channel map of the link under a handle, 0 where it is not open.
fn map_in_use<const L: usize, const T: usize, const R: usize>(
    links: &OpenLinks<L, T, R>,
    handle: u16,
) -> u64
    ensures value { (known : Links) (received : List (ℕ × Piece))
        → KnowsLinks links.now known received
        → result ≡ map_of (link_at handle known) }
    ensures fits { result < 2 ^ 40 }
{
    match links.params(handle) {
        None => 0,
        Some(params) => params.map.bits(),
    }
}

/// The cipher text of a block. Key, block and answer of a host have the least significant octet
/// first, and those of the cipher the most significant one (section 7.8.22).
fn encrypted(key: &[u8; 16], text: &[u8; 16]) -> [u8; 16]
    ensures { result ≡ encrypted key.now text.now }
{
    turned(&Aes::new(&turned(key)).encrypt(&turned(text)))
}

impl<const L: usize, const T: usize, const R: usize> Controller<L, T, R> {
    /// The random word that is drawn next.
    pub(crate) fn random_word(&self) -> u64
        ensures value { (has : Setup) (facts : Facts) → IsAt has self.now facts
            → result ≡ next_word has facts.drawn }
        ensures bound { result < 2 ^ 64 }
    {
        self.words[self.next_word]
    }

    /// Appends what an accepted command returns after its status (sections 7.3, 7.4 and 7.8).
    pub(crate) fn put_returned(&self, command: &Command, fields: &mut Fields)
        requires { length fields.old.items ≤ 1 }
        ensures { (has : Setup) (facts : Facts) → IsAt has self.now facts
            → fields.new.items ≡ fields.old.items ++ returned has facts command.now }
    {
        match command {
            Command::ReadLocalVersion => put_octets(fields, &VERSION),
            Command::ReadLocalFeatures => put_octets(fields, &FEATURES),
            Command::ReadBdAddr => put_octets(fields, &self.public),
            Command::LeReadBufferSize => {
                put_u16(fields, PAYLOAD_OCTETS as u16);
                fields.push(T as u8);
            }
            Command::LeReadFeatures => put_octets(fields, &LE_FEATURES),
            Command::LeReadListSize => fields.push(ACCEPT_LIST_SIZE as u8),
            Command::LeEncrypt { key, text } => put_octets(fields, &encrypted(key, text)),
            Command::LeRand => put_u64(fields, self.random_word()),
            Command::LeReadMaxLength => {
                put_longest(fields);
                put_longest(fields);
            }
            Command::LeReadChannelMap { handle } => {
                put_u16(fields, *handle);
                put_u40(fields, map_in_use(&self.links, *handle));
            }
            Command::LeReadPhy { handle } => {
                put_u16(fields, *handle);
                put_octets(fields, &[LE_1M, LE_1M]);
            }
            Command::LeKeyReply { handle, .. }
            | Command::LeKeyNegative { handle }
            | Command::LeParamReply { handle, .. }
            | Command::LeParamNegative { handle, .. }
            | Command::LeSetDataLength { handle, .. } => put_u16(fields, *handle),
            _ => {}
        }
    }
}
