//! The words of a journal's lines in a chart.
ghost use Rattle.std.specs.Prelude.{◌≡◌, IfOk, string_bytes};
ghost use Rattle.journal.specs.Words.{role_name, kind_name, verdict_name};
ghost use Rattle.chart.specs.Words.{applied_words, code_word, event_words, fate_words};
ghost use Rattle.chart.specs.Words.{host_words};
ghost use Rattle.chart.specs.Words.{opened_words, packet_words, payload_words, procedure_words};
ghost use Rattle.chart.specs.Words.{refused_words, shown_octets, shut_words, words_of};

use crate::layout::SHOWN;
use crate::pdus::{body_words, pdu_words};
use ble_base::{ErrCode, Kind, Role, Verdict};
use journal::{Entry, Mark};
use std::alloc::{AllocError, Global};

/// The name of a role.
fn role_name(role: Role) -> &'static str
    ensures { result.now ≡ role_name role }
{
    match role {
        Role::Central => "central",
        Role::Peripheral => "peripheral",
    }
}

/// The name of a control procedure.
fn kind_name(kind: Kind) -> &'static str
    ensures { result.now ≡ kind_name kind }
{
    match kind {
        Kind::Update => "update",
        Kind::Request => "request",
        Kind::Map => "map",
        Kind::Phy => "phy",
        Kind::Features => "features",
        Kind::Version => "version",
        Kind::Length => "length",
        Kind::Encrypt => "encrypt",
    }
}

/// The name of a verdict.
pub fn verdict_name(verdict: Verdict) -> &'static str
    ensures { result.now ≡ verdict_name verdict }
{
    match verdict {
        Verdict::Missed => "missed",
        Verdict::Broken => "broken",
        Verdict::Forged => "forged",
        Verdict::Good => "good",
    }
}

/// What became of a packet on its way.
fn fate_words(fate: &Mark) -> &'static str
    ensures { result.now ≡ fate_words fate.now }
{
    match fate {
        Mark::Pass => "",
        Mark::Lost => ", lost",
        Mark::Damage { .. } => ", damaged",
    }
}

/// Octets in hexadecimal, the first ten of them.
fn shown_octets(alloc: Global, octets: &[u8]) -> Result<String, AllocError>
    ensures { IfOk result (λ words. string_bytes words ≡ shown_octets octets.now) }
{
    if octets.len() > SHOWN {
        let mut words = hex::encode(alloc, &octets[..SHOWN])?;
        words.push_str("..")?;
        Ok(words)
    } else {
        hex::encode(alloc, octets)
    }
}

/// What a host sends or receives.
fn host_words(alloc: Global, name: &str, octets: &[u8]) -> Result<String, AllocError>
    ensures { IfOk result (λ words. string_bytes words ≡ host_words name.now octets.now) }
{
    let shown = shown_octets(alloc, octets)?;
    let length = octets.len();
    format!(in alloc; "{name}{shown}, {length} octets")
}

/// A PDU with a payload.
fn payload_words(
    alloc: Global,
    name: &str,
    link: u64,
    number: u64,
    llid: u8,
    body: &[u8],
) -> Result<String, AllocError>
    ensures { IfOk result (λ words.
        string_bytes words ≡ payload_words name.now link number llid body.now) }
{
    let words = body_words(alloc, llid, body)?;
    format!(in alloc; "{name}: link {link}, PDU {number}, {words}")
}

/// A control procedure.
fn procedure_words(alloc: Global, name: &str, link: u64, kind: Kind) -> Result<String, AllocError>
    ensures { IfOk result (λ words. string_bytes words ≡ procedure_words name.now link kind) }
{
    let kind = kind_name(kind);
    format!(in alloc; "{name}: link {link}, {kind}")
}

/// A packet on the air.
fn packet_words(
    alloc: Global,
    channel: u8,
    octets: &[u8],
    fate: &Mark,
    verdict: Verdict,
) -> Result<String, AllocError>
    ensures { IfOk result (λ words.
        string_bytes words ≡ packet_words channel octets.now fate.now verdict) }
{
    let pdu = pdu_words(alloc, channel, octets)?;
    let (fate, verdict) = (fate_words(fate), verdict_name(verdict));
    format!(in alloc; "channel {channel}: {pdu}{fate}, {verdict}")
}

/// A link that is opened.
fn opened_words(alloc: Global, link: u64, handle: u16, role: Role) -> Result<String, AllocError>
    ensures { IfOk result (λ words. string_bytes words ≡ opened_words link handle role) }
{
    let role = role_name(role);
    format!(in alloc; "open: link {link}, handle {handle}, {role}")
}

/// An error code.
#[tactic(auto, unfolding(crate::specs::Words::code_word))]
fn code_word(alloc: Global, code: ErrCode) -> Result<String, AllocError>
    ensures { IfOk result (λ word. string_bytes word ≡ code_word code) }
{
    hex::encode(alloc, &[code.0])
}

/// A link that is closed.
fn shut_words(alloc: Global, link: u64, reason: ErrCode) -> Result<String, AllocError>
    ensures { IfOk result (λ words. string_bytes words ≡ shut_words link reason) }
{
    let reason = code_word(alloc, reason)?;
    format!(in alloc; "shut: reason {reason}, link {link}")
}

/// A connection event.
fn event_words(alloc: Global, link: u64, event: u64, channel: u8) -> Result<String, AllocError>
    ensures { IfOk result (λ words. string_bytes words ≡ event_words link event channel) }
{
    format!(in alloc; "event {event}: link {link}, channel {channel}")
}

/// An indication that is in force.
fn applied_words(alloc: Global, link: u64, number: u64, event: u64) -> Result<String, AllocError>
    ensures { IfOk result (λ words. string_bytes words ≡ applied_words link number event) }
{
    format!(in alloc; "applied: link {link}, indication {number}, event {event}")
}

/// A control procedure that is refused.
fn refused_words(alloc: Global, link: u64, kind: Kind, code: ErrCode) -> Result<String, AllocError>
    ensures { IfOk result (λ words. string_bytes words ≡ refused_words link kind code) }
{
    let kind = kind_name(kind);
    let code = code_word(alloc, code)?;
    format!(in alloc; "refused: reason {code}, link {link}, {kind}")
}

/// The words of a line in its row.
pub fn words_of(alloc: Global, entry: &Entry) -> Result<String, AllocError>
    ensures { IfOk result (λ words. string_bytes words ≡ words_of entry.now) }
{
    match entry {
        Entry::Turn { .. } => Ok(String::new(alloc)),
        Entry::Fed { octets, .. } => host_words(alloc, "in ", octets.as_slice()),
        Entry::Up { octets, .. } => host_words(alloc, "up ", octets.as_slice()),
        Entry::Air {
            channel,
            octets,
            fate,
            verdict,
            ..
        } => packet_words(alloc, *channel, octets.as_slice(), fate, *verdict),
        Entry::Opened {
            link,
            handle,
            role,
            ..
        } => opened_words(alloc, *link, *handle, *role),
        Entry::Shut { link, reason, .. } => shut_words(alloc, *link, *reason),
        Entry::Sent {
            link,
            number,
            llid,
            body,
            ..
        } => payload_words(alloc, "sent", *link, *number, *llid, body.as_slice()),
        Entry::Took {
            link,
            number,
            llid,
            body,
            ..
        } => payload_words(alloc, "took", *link, *number, *llid, body.as_slice()),
        Entry::Enter {
            link,
            event,
            channel,
            ..
        } => event_words(alloc, *link, *event, *channel),
        Entry::Applied {
            link,
            number,
            event,
            ..
        } => applied_words(alloc, *link, *number, *event),
        Entry::Began { link, kind, .. } => procedure_words(alloc, "began", *link, *kind),
        Entry::Refused {
            link,
            kind,
            code,
            ..
        } => refused_words(alloc, *link, *kind, *code),
        Entry::Done { link, kind, .. } => procedure_words(alloc, "done", *link, *kind),
    }
}
