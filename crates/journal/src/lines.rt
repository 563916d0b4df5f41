//! Writing the lines of entries.
ghost use Rattle.std.specs.Prelude.{◌≡◌, ◌∷◌, [], ◌++◌, OnOk, IfOk, decimal};
ghost use Rattle.line_words.specs.Text.{line_of};
ghost use Rattle.journal.specs.Text.{entry_words, line, text};
ghost use Rattle.journal.specs.Words.{hexadecimal, kind_name, side_name};

use crate::entries::{Entry, Mark};
use crate::octets::Octets;
use crate::words::{
    kind_word, put_code, put_mark, put_number, put_octets, put_side, put_word, radio_word,
    role_word, verdict_word,
};
use ble_base::{ErrCode, Kind, Role, Side, Verdict};
use std::alloc::{AllocError, Global};

/// Writes the name of a line, and a side.
fn put_side_line(text: &mut Vec<u8>, name: &[u8], side: Side) -> Result<(), AllocError>
    ensures { OnOk result (text.new.items
        ≡ text.old.items ++ line_of (name.now ∷ side_name side ∷ [])) }
{
    text.extend_from_slice(name)?;
    put_side(text, side)
}

/// Writes the name of a line, a side and the number of a link.
fn put_link_line(text: &mut Vec<u8>, name: &[u8], side: Side, link: u64) -> Result<(), AllocError>
    ensures { OnOk result (text.new.items
        ≡ text.old.items ++ line_of (name.now ∷ side_name side ∷ decimal link ∷ [])) }
{
    put_side_line(text, name, side)?;
    put_number(text, link)
}

/// Writes a line of a link with two further numbers.
fn put_numbers_line(
    text: &mut Vec<u8>,
    name: &[u8],
    side: Side,
    link: u64,
    first: u64,
    second: u64,
) -> Result<(), AllocError>
    ensures { OnOk result (text.new.items ≡ text.old.items ++ line_of
        (name.now ∷ side_name side ∷ decimal link ∷ decimal first ∷ decimal second ∷ [])) }
{
    put_link_line(text, name, side, link)?;
    put_number(text, first)?;
    put_number(text, second)
}

/// Writes the line of a turn.
fn put_turn(text: &mut Vec<u8>, slot: u64, a_on: bool, b_on: Option<bool>) -> Result<(), AllocError>
    ensures { OnOk result (text.new.items
        ≡ text.old.items ++ line_of (entry_words (Entry.Turn slot a_on b_on))) }
{
    text.extend_from_slice(b"turn")?;
    put_number(text, slot)?;
    put_word(text, radio_word(a_on, b_on))
}

/// Writes a line of octets between a host and its controller.
fn put_host(text: &mut Vec<u8>, name: &[u8], side: Side, octets: &Octets) -> Result<(), AllocError>
    ensures { OnOk result (text.new.items
        ≡ text.old.items ++ line_of (name.now ∷ side_name side ∷ hexadecimal octets.now ∷ [])) }
{
    put_side_line(text, name, side)?;
    put_octets(text, octets.as_slice())
}

/// Writes the line of a packet on the air.
fn put_air(
    text: &mut Vec<u8>,
    side: Side,
    channel: u8,
    octets: &Octets,
    fate: &Mark,
    verdict: Verdict,
) -> Result<(), AllocError>
    ensures { OnOk result (text.new.items ≡ text.old.items
        ++ line_of (entry_words (Entry.Air side channel octets.now fate.now verdict))) }
{
    put_side_line(text, b"air", side)?;
    put_number(text, u64::from(channel))?;
    put_octets(text, octets.as_slice())?;
    put_mark(text, fate)?;
    put_word(text, verdict_word(verdict))
}

/// Writes the line of a link that is opened.
fn put_opened(
    text: &mut Vec<u8>,
    side: Side,
    link: u64,
    handle: u16,
    role: Role,
) -> Result<(), AllocError>
    ensures { OnOk result (text.new.items
        ≡ text.old.items ++ line_of (entry_words (Entry.Opened side link handle role))) }
{
    put_link_line(text, b"open", side, link)?;
    put_number(text, u64::from(handle))?;
    put_word(text, role_word(role))
}

/// Writes the line of a link that is shut.
fn put_shut(text: &mut Vec<u8>, side: Side, link: u64, reason: ErrCode) -> Result<(), AllocError>
    ensures { OnOk result (text.new.items
        ≡ text.old.items ++ line_of (entry_words (Entry.Shut side link reason))) }
{
    put_link_line(text, b"shut", side, link)?;
    put_code(text, reason)
}

/// Writes a line of a PDU.
fn put_pdu(
    text: &mut Vec<u8>,
    name: &[u8],
    side: Side,
    link: u64,
    number: u64,
    llid: u8,
    body: &Octets,
) -> Result<(), AllocError>
    ensures { OnOk result (text.new.items ≡ text.old.items
        ++ line_of (name.now ∷ side_name side ∷ decimal link ∷ decimal number ∷ decimal llid
        ∷ hexadecimal body.now ∷ [])) }
{
    put_numbers_line(text, name, side, link, number, u64::from(llid))?;
    put_octets(text, body.as_slice())
}

/// Writes a line of a control procedure.
fn put_procedure(
    text: &mut Vec<u8>,
    name: &[u8],
    side: Side,
    link: u64,
    kind: Kind,
) -> Result<(), AllocError>
    ensures { OnOk result (text.new.items ≡ text.old.items
        ++ line_of (name.now ∷ side_name side ∷ decimal link ∷ kind_name kind ∷ [])) }
{
    put_link_line(text, name, side, link)?;
    put_word(text, kind_word(kind))
}

/// Writes the line of a control procedure that is refused.
fn put_refused(
    text: &mut Vec<u8>,
    side: Side,
    link: u64,
    kind: Kind,
    code: ErrCode,
) -> Result<(), AllocError>
    ensures { OnOk result (text.new.items
        ≡ text.old.items ++ line_of (entry_words (Entry.Refused side link kind code))) }
{
    put_procedure(text, b"refused", side, link, kind)?;
    put_code(text, code)
}

/// Writes an entry. A row has the entry, and the call that writes its line.
macro_rules! put_rows {
    (
        $text:ident, $entry:ident;
        $($name:ident { $($field:ident),* } => $put:ident($($value:expr),*);)*
    ) => {
        match $entry {
            $(Entry::$name { $($field),* } => $put($text, $($value),*),)*
        }
    };
}

/// Writes the words of an entry.
fn put_entry(text: &mut Vec<u8>, entry: &Entry) -> Result<(), AllocError>
    ensures { OnOk result (text.new.items ≡ text.old.items ++ line_of (entry_words entry.now)) }
{
    put_rows! {
        text, entry;
        Turn { slot, a_on, b_on } => put_turn(*slot, *a_on, *b_on);
        Fed { side, octets } => put_host(b"in", *side, octets);
        Up { side, octets } => put_host(b"up", *side, octets);
        Air { side, channel, octets, fate, verdict } =>
            put_air(*side, *channel, octets, fate, *verdict);
        Opened { side, link, handle, role } => put_opened(*side, *link, *handle, *role);
        Shut { side, link, reason } => put_shut(*side, *link, *reason);
        Sent { side, link, number, llid, body } =>
            put_pdu(b"sent", *side, *link, *number, *llid, body);
        Took { side, link, number, llid, body } =>
            put_pdu(b"took", *side, *link, *number, *llid, body);
        Enter { side, link, event, channel } =>
            put_numbers_line(b"enter", *side, *link, *event, u64::from(*channel));
        Applied { side, link, number, event } =>
            put_numbers_line(b"applied", *side, *link, *number, *event);
        Began { side, link, kind } => put_procedure(b"began", *side, *link, *kind);
        Refused { side, link, kind, code } => put_refused(*side, *link, *kind, *code);
        Done { side, link, kind } => put_procedure(b"done", *side, *link, *kind);
    }
}

/// Writes the line of an entry.
fn put_line(text: &mut Vec<u8>, entry: &Entry) -> Result<(), AllocError>
    ensures { OnOk result (text.new.items ≡ text.old.items ++ line entry.now) }
{
    put_entry(text, entry)?;
    text.push(b'\n')?;
    Ok(())
}

/// The text of these entries in ASCII: a line for each, with one space between two words and a
/// newline at its end (our choice). The error is out of memory.
pub fn write_lines(alloc: Global, entries: &[Entry]) -> Result<Octets, AllocError>
    ensures { IfOk result (λ written. written ≡ text entries.now) }
{
    let mut lines = Vec::new(alloc);
    for entry in entries {
        put_line(&mut lines, entry)?;
    }
    Ok(Octets::from(lines))
}

/// The line of an entry, with its newline. The error is out of memory.
pub fn write_line(alloc: Global, entry: &Entry) -> Result<Octets, AllocError>
    ensures { IfOk result (λ written. written ≡ line entry.now) }
{
    let mut text = Vec::new(alloc);
    put_line(&mut text, entry)?;
    Ok(Octets::from(text))
}
