//! What the host of a controller gives, asks for, answers and ends on its links, and what it is
//! told of them.
ghost use Rattle.procedure_values.specs.Wants.{IsAsk};

use crate::sides::{Side, put_numbers};
use ble_base::{ChannelMap, ErrCode};
use open_links::{Completed, Offer, PeerVersion};
use procedures::Ask;
use std::alloc::AllocError;
use test_words::{Call, hex_number, number, put_answer, put_number, put_octets};

/// An update to a timeout of 1 s.
pub(crate) fn update() -> Ask
    ensures { IsAsk result }
{
    Ask::Update {
        interval: 24,
        latency: 0,
        timeout: 100,
    }
}

/// What a host asks for on one link: a request for 40 ms, a map of the channels 0 to 32, or the
/// version of the peer.
pub(crate) fn ask_named(name: &str) -> Ask
    ensures { IsAsk result }
{
    match name {
        "request" => Ask::Request {
            min: 32,
            max: 32,
            latency: 0,
            timeout: 72,
        },
        "map" => Ask::Map(few_channels()),
        _ => Ask::Version,
    }
}

/// The channels 0 to 32.
pub(crate) fn few_channels() -> ChannelMap {
    ChannelMap::new(0x01_FFFF_FFFF).unwrap_or_default()
}

/// The error that two digits spell.
pub(crate) fn code_of(told: &String, word: &str) -> ErrCode {
    ErrCode(u8::try_from(hex_number(*told.allocator(), word)).unwrap_or(u8::MAX))
}

/// Writes the version of a peer, its company and the number of the implementation.
fn put_version(told: &mut String, version: Option<PeerVersion>) -> Result<(), AllocError> {
    let Some(version) = version else {
        return told.push_str(" unknown");
    };
    let (company, sub) = (u64::from(version.company), u64::from(version.sub));
    put_numbers(told, &[u64::from(version.version), company, sub])
}

impl Side {
    /// What becomes of the start of a message that the host gives.
    pub(crate) fn give(
        &mut self,
        handle: u16,
        body: &[u8],
        told: &mut String,
    ) -> Result<(), AllocError> {
        told.push_str(match self.links.give(handle, true, body) {
            Offer::NoLink => " no link",
            Offer::Empty => " empty",
            Offer::Overflow => " overflow",
            Offer::Kept => " kept",
        })
    }

    /// The links with complete packets that are not reported, and how many there are.
    pub(crate) fn report(&mut self, told: &mut String) -> Result<(), AllocError> {
        for completed in self.links.report().as_slice() {
            let Completed { handle, count } = *completed;
            put_numbers(told, &[u64::from(handle), u64::from(count)])?;
        }
        Ok(())
    }

    /// The piece that the host receives: its handle, whether it starts a message, and its octets.
    pub(crate) fn hand_up(&mut self, told: &mut String) -> Result<(), AllocError> {
        let Some((handle, piece)) = self.links.hand_up() else {
            return told.push_str(" none");
        };
        put_number(told, u64::from(handle))?;
        put_answer(told, piece.start)?;
        put_octets(told, piece.body.as_slice())
    }

    /// Whether the host may ask for a procedure on a link, a request waits there for its answer, it
    /// has entered an event, or is open.
    fn is_so(&self, call: Call<'_>) -> Option<bool> {
        let [first, second, ..] = call.words;
        let handle = number(first);
        match call.name {
            "may_ask" => self.links.may_ask(handle, ask_named(second).kind()),
            "awaits_host" => self.links.awaits_host(handle),
            "has_entered" => self.links.has_entered(handle),
            _ => Some(self.links.setup(handle).is_some()),
        }
    }

    /// Writes whether something is so on a link, or that there is none.
    pub(crate) fn ask_whether(&self, call: Call<'_>, told: &mut String) -> Result<(), AllocError> {
        match self.is_so(call) {
            None => told.push_str(" none"),
            Some(is_so) => put_answer(told, is_so),
        }
    }

    /// What is known of the peer of a link.
    pub(crate) fn peer(&self, handle: u16, told: &mut String) -> Result<(), AllocError> {
        match self.links.peer(handle) {
            None => told.push_str(" none"),
            Some(peer) => put_version(told, peer.version),
        }
    }
}
