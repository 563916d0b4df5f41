//! Reading an entry from its line.
ghost use Rattle.std.specs.Prelude.{◌≡◌, IfOk};
ghost use Rattle.journal.specs.Reading.{air_in, applied_in, began_in, done_in, enter_in, entry_in, fed_in, first_entry, link_in, named_in, opened_in, packet_in, procedure_in, refused_in, sent_in, shut_in, took_in, turn_in, up_in};
ghost use Rattle.journal.specs.WordTuples.{five_words, four_words, three_words, two_words};

use crate::entries::Entry;
use crate::fields::{
    read_code, read_kind, read_mark, read_octets, read_radios, read_role, read_side, read_u8,
    read_u16, read_u64, read_verdict,
};
use crate::word_tuples::{five_words, four_words, three_words, two_words};
use line_words::{Lines, Words};
use std::alloc::{AllocError, Global};

/// Binds a value that was read. There is no entry if it was not.
macro_rules! read {
    ($name:ident = $read:expr) => {
        let Some($name) = $read else {
            return Ok(None);
        };
    };
}

/// Reads the words after the name of a kind. Where it is none of these names, the last reader goes
/// on.
macro_rules! read_by_name {
    ($word:ident; $($name:literal => $read:expr;)* else $more:expr) => {
        $(if $word == $name.as_slice() {
            return $read;
        })*
        $more
    };
}

/// Reads the begin of a turn.
fn read_turn(words: Words<'_>) -> Option<Entry>
    ensures { result ≡ turn_in (two_words words.entry) }
{
    let (slot, radios) = two_words(words)?;
    let slot = read_u64(slot)?;
    let (a_on, b_on) = read_radios(radios)?;
    Some(Entry::Turn { slot, a_on, b_on })
}

/// Reads a link that was made.
fn read_opened(words: Words<'_>) -> Option<Entry>
    ensures { result ≡ opened_in (four_words words.entry) }
{
    let (side, link, handle, role) = four_words(words)?;
    let side = read_side(side)?;
    let link = read_u64(link)?;
    let handle = read_u16(handle)?;
    let role = read_role(role)?;
    Some(Entry::Opened {
        side,
        link,
        handle,
        role,
    })
}

/// Reads a link that ended.
fn read_shut(words: Words<'_>) -> Option<Entry>
    ensures { result ≡ shut_in (three_words words.entry) }
{
    let (side, link, reason) = three_words(words)?;
    let side = read_side(side)?;
    let link = read_u64(link)?;
    let reason = read_code(reason)?;
    Some(Entry::Shut { side, link, reason })
}

/// Reads a connection event.
fn read_enter(words: Words<'_>) -> Option<Entry>
    ensures { result ≡ enter_in (four_words words.entry) }
{
    let (side, link, event, channel) = four_words(words)?;
    let side = read_side(side)?;
    let link = read_u64(link)?;
    let event = read_u64(event)?;
    let channel = read_u8(channel)?;
    Some(Entry::Enter {
        side,
        link,
        event,
        channel,
    })
}

/// Reads an indication in force.
fn read_applied(words: Words<'_>) -> Option<Entry>
    ensures { result ≡ applied_in (four_words words.entry) }
{
    let (side, link, number, event) = four_words(words)?;
    let side = read_side(side)?;
    let link = read_u64(link)?;
    let number = read_u64(number)?;
    let event = read_u64(event)?;
    Some(Entry::Applied {
        side,
        link,
        number,
        event,
    })
}

/// Reads a procedure that was begun.
fn read_began(words: Words<'_>) -> Option<Entry>
    ensures { result ≡ began_in (three_words words.entry) }
{
    let (side, link, kind) = three_words(words)?;
    let side = read_side(side)?;
    let link = read_u64(link)?;
    let kind = read_kind(kind)?;
    Some(Entry::Began { side, link, kind })
}

/// Reads a procedure that was refused.
fn read_refused(words: Words<'_>) -> Option<Entry>
    ensures { result ≡ refused_in (four_words words.entry) }
{
    let (side, link, kind, code) = four_words(words)?;
    let side = read_side(side)?;
    let link = read_u64(link)?;
    let kind = read_kind(kind)?;
    let code = read_code(code)?;
    Some(Entry::Refused {
        side,
        link,
        kind,
        code,
    })
}

/// Reads a procedure that was completed.
fn read_done(words: Words<'_>) -> Option<Entry>
    ensures { result ≡ done_in (three_words words.entry) }
{
    let (side, link, kind) = three_words(words)?;
    let side = read_side(side)?;
    let link = read_u64(link)?;
    let kind = read_kind(kind)?;
    Some(Entry::Done { side, link, kind })
}

/// Reads octets from a host.
fn read_fed(alloc: Global, words: Words<'_>) -> Result<Option<Entry>, AllocError>
    ensures { IfOk result (λ entry. entry ≡ fed_in (two_words words.entry)) }
{
    let Some((side, octets)) = two_words(words) else {
        return Ok(None);
    };
    read!(side = read_side(side));
    read!(octets = read_octets(alloc, octets)?);
    Ok(Some(Entry::Fed { side, octets }))
}

/// Reads a packet to a host.
fn read_up(alloc: Global, words: Words<'_>) -> Result<Option<Entry>, AllocError>
    ensures { IfOk result (λ entry. entry ≡ up_in (two_words words.entry)) }
{
    let Some((side, octets)) = two_words(words) else {
        return Ok(None);
    };
    read!(side = read_side(side));
    read!(octets = read_octets(alloc, octets)?);
    Ok(Some(Entry::Up { side, octets }))
}

/// Reads a packet on the air.
fn read_air(alloc: Global, words: Words<'_>) -> Result<Option<Entry>, AllocError>
    ensures { IfOk result (λ entry. entry ≡ air_in (five_words words.entry)) }
{
    let Some((side, channel, octets, fate, verdict)) = five_words(words) else {
        return Ok(None);
    };
    read!(side = read_side(side));
    read!(channel = read_u8(channel));
    read!(octets = read_octets(alloc, octets)?);
    read!(fate = read_mark(alloc, fate)?);
    read!(verdict = read_verdict(verdict));
    Ok(Some(Entry::Air {
        side,
        channel,
        octets,
        fate,
        verdict,
    }))
}

/// Reads a PDU that was sent for the first time.
fn read_sent(alloc: Global, words: Words<'_>) -> Result<Option<Entry>, AllocError>
    ensures { IfOk result (λ entry. entry ≡ sent_in (five_words words.entry)) }
{
    let Some((side, link, number, llid, body)) = five_words(words) else {
        return Ok(None);
    };
    read!(side = read_side(side));
    read!(link = read_u64(link));
    read!(number = read_u64(number));
    read!(llid = read_u8(llid));
    read!(body = read_octets(alloc, body)?);
    Ok(Some(Entry::Sent {
        side,
        link,
        number,
        llid,
        body,
    }))
}

/// Reads a PDU that was accepted.
fn read_took(alloc: Global, words: Words<'_>) -> Result<Option<Entry>, AllocError>
    ensures { IfOk result (λ entry. entry ≡ took_in (five_words words.entry)) }
{
    let Some((side, link, number, llid, body)) = five_words(words) else {
        return Ok(None);
    };
    read!(side = read_side(side));
    read!(link = read_u64(link));
    read!(number = read_u64(number));
    read!(llid = read_u8(llid));
    read!(body = read_octets(alloc, body)?);
    Ok(Some(Entry::Took {
        side,
        link,
        number,
        llid,
        body,
    }))
}

/// Reads a line with this name, of a control procedure.
fn read_procedure(name: &[u8], words: Words<'_>) -> Option<Entry>
    ensures { result ≡ procedure_in name.now words.entry }
{
    read_by_name! {
        name;
        b"applied" => read_applied(words);
        b"began" => read_began(words);
        b"refused" => read_refused(words);
        b"done" => read_done(words);
        else None
    }
}

/// Reads a line with this name, of a packet or a PDU too.
fn read_packet(alloc: Global, name: &[u8], words: Words<'_>) -> Result<Option<Entry>, AllocError>
    ensures { IfOk result (λ entry. entry ≡ packet_in name.now words.entry) }
{
    read_by_name! {
        name;
        b"air" => read_air(alloc, words);
        b"sent" => read_sent(alloc, words);
        b"took" => read_took(alloc, words);
        else Ok(read_procedure(name, words))
    }
}

/// Reads a line with this name, of a link too.
fn read_link(alloc: Global, name: &[u8], words: Words<'_>) -> Result<Option<Entry>, AllocError>
    ensures { IfOk result (λ entry. entry ≡ link_in name.now words.entry) }
{
    read_by_name! {
        name;
        b"open" => Ok(read_opened(words));
        b"shut" => Ok(read_shut(words));
        b"enter" => Ok(read_enter(words));
        else read_packet(alloc, name, words)
    }
}

/// Reads a line with this name, of a turn or a host too.
fn read_named(alloc: Global, name: &[u8], words: Words<'_>) -> Result<Option<Entry>, AllocError>
    ensures { IfOk result (λ entry. entry ≡ named_in name.now words.entry) }
{
    read_by_name! {
        name;
        b"turn" => Ok(read_turn(words));
        b"in" => read_fed(alloc, words);
        b"up" => read_up(alloc, words);
        else read_link(alloc, name, words)
    }
}

/// Reads the entry of all words of a line.
fn read_words(alloc: Global, mut words: Words<'_>) -> Result<Option<Entry>, AllocError>
    ensures { IfOk result (λ entry. entry ≡ entry_in words.entry) }
{
    match words.next_word() {
        Some(name) => read_named(alloc, name, words),
        None => Ok(None),
    }
}

/// Reads the entry that the first line of a text spells. It takes more spellings than those that
/// are written.
pub fn read_first(alloc: Global, text: &[u8]) -> Result<Option<Entry>, AllocError>
    ensures { IfOk result (λ entry. entry ≡ first_entry text.now) }
{
    match Lines::of(text).next_line() {
        Some(line) => read_words(alloc, Words::of(line)),
        None => Ok(None),
    }
}
