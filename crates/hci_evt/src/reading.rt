//! Events, each read from its octets.
ghost use Rattle.std.specs.Prelude.{◌≡◌, ◌≢◌, ℕ, ◌≤◌, ◌<◌, ◌++◌, List, Some, length, IfSome, IfNone};
ghost use Rattle.wire_fields.specs.Field.{little_endian};
ghost use Rattle.wire_fields.specs.Layout.{read_some_by};
ghost use Rattle.wire_fields.specs.Table.{value_in};
ghost use Rattle.hci_evt.specs.Event.{Spells, IsEvent, written};
ghost use Rattle.hci_evt.specs.declared.event.Event.{Event};
ghost use Rattle.hci_evt.specs.Reading.{advertising_report, command_complete, completed_packets};
ghost use Rattle.hci_evt.specs.Reading.{layouts, read_with, le_event_in, event_in};
ghost use Rattle.hci_evt.specs.Reading.{event_of, IsPacket};

use crate::event::{Event, INDICATOR};
use crate::rows::event_rows;
use arrayvec::ArrayVec;
use wire_fields::{Fields, put_octets, take_field, width};

/// An event of these fields, where the number of octets is the sum of their widths.
macro_rules! take {
    ($fields:ident, $name:ident: $($kind:tt $field:ident),*) => {
        if $fields.has_exactly(0 $(+ width!($kind))*) {
            Some(Event::$name { $($field: take_field!($fields $kind)),* })
        } else {
            None
        }
    };
}

/// The event of the row with this code.
macro_rules! take_row {
    (
        $fields:ident $event_code:ident;
        masked { $($name:ident $code:literal $bit:literal: $($kind:tt $field:ident),*;)* }
        unmasked { $($status:ident $status_code:literal: $($status_kind:tt $status_field:ident),*;)* }
        $($le:ident { $($rest:tt)* })*
    ) => {
        match $event_code {
            $($code => take!($fields, $name: $($kind $field),*),)*
            $($status_code => take!($fields, $status: $($status_kind $status_field),*),)*
            0x0E => command_complete($fields),
            0x13 => completed_packets($fields),
            _ => None,
        }
    };
}

/// The LE meta event of the row with this subevent code, below 07.
macro_rules! take_low_row {
    (
        $fields:ident $subevent:ident;
        masked { $($masked:tt)* }
        unmasked { $($unmasked:tt)* }
        low { $($name:ident $code:literal $bit:literal: $($kind:tt $field:ident),*;)* }
        high { $($high:tt)* }
    ) => {
        match $subevent {
            $($code => take!($fields, $name: $($kind $field),*),)*
            0x02 => advertising_report($fields),
            _ => None,
        }
    };
}

/// The LE meta event of the row with this subevent code, from 07 on.
macro_rules! take_high_row {
    (
        $fields:ident $subevent:ident;
        masked { $($masked:tt)* }
        unmasked { $($unmasked:tt)* }
        low { $($low:tt)* }
        high { $($name:ident $code:literal $bit:literal: $($kind:tt $field:ident),*;)* }
    ) => {
        match $subevent {
            $($code => take!($fields, $name: $($kind $field),*),)*
            _ => None,
        }
    };
}

/// The most octets of data of an advertising report.
const MOST_DATA: u8 = 31;

/// LE Advertising Report, of one report, after its subevent code.
fn advertising_report(mut fields: Fields) -> Option<Event>
    ensures value { result ≡ read_some_by advertising_report fields.entry }
    ensures spells { IfSome result (λ event.
        Spells event 0x3E (little_endian 1 0x02 ++ fields.entry)) }
{
    if fields.len() < 11 {
        return None;
    }
    let reports = fields.u8();
    let kind = fields.u8();
    let address_kind = fields.u8();
    let address = fields.octets::<6>();
    let count = fields.u8();
    if reports != 1 || count > MOST_DATA || !fields.has_exactly(count as usize + 1) {
        return None;
    }
    let mut octets = ArrayVec::new();
    put_octets(&mut octets, fields.slice(count as usize));
    Some(Event::AdvertisingReport {
        kind,
        address_kind,
        address,
        octets,
        rssi: fields.u8(),
    })
}

/// Command Complete: all octets after the opcode are return parameters.
fn command_complete(mut fields: Fields) -> Option<Event>
    requires { length fields ≤ 255 }
    ensures value { result ≡ read_some_by command_complete fields.entry }
    ensures spells { IfSome result (λ event. Spells event 0x0E fields.entry) }
{
    if fields.len() < 3 {
        return None;
    }
    let number = fields.u8();
    let opcode = fields.u16();
    let mut returned = ArrayVec::new();
    put_octets(&mut returned, fields.slice(fields.len()));
    Some(Event::CommandComplete {
        number,
        opcode,
        fields: returned,
    })
}

/// Number Of Completed Packets, of one handle.
fn completed_packets(mut fields: Fields) -> Option<Event>
    ensures value { result ≡ read_some_by completed_packets fields.entry }
    ensures spells { IfSome result (λ event. Spells event 0x13 fields.entry) }
{
    if !fields.has_exactly(5) {
        return None;
    }
    if fields.u8() != 1 {
        return None;
    }
    Some(Event::CompletedPackets {
        handle: fields.u16(),
        count: fields.u16(),
    })
}

/// The LE event with this subevent code, below 07, of what is after the code.
#[tactic(auto, unfolding(crate::specs::Reading::le_event_in, crate::specs::Reading::le_layouts))]
fn low_le_event(subevent: u8, mut fields: Fields) -> Option<Event>
    requires { subevent < 7 }
    ensures value { result ≡ le_event_in subevent fields.entry }
    ensures spells { IfSome result (λ event.
        Spells event 0x3E (little_endian 1 subevent ++ fields.entry)) }
{
    event_rows!(take_low_row fields subevent)
}

/// The LE event with this subevent code, from 07 on, of what is after the code.
#[tactic(auto, unfolding(crate::specs::Reading::le_event_in, crate::specs::Reading::le_layouts))]
fn high_le_event(subevent: u8, mut fields: Fields) -> Option<Event>
    requires { 7 ≤ subevent }
    ensures value { result ≡ le_event_in subevent fields.entry }
    ensures spells { IfSome result (λ event.
        Spells event 0x3E (little_endian 1 subevent ++ fields.entry)) }
{
    event_rows!(take_high_row fields subevent)
}

/// The LE event with this subevent code, of what is after the code.
fn le_event(subevent: u8, fields: Fields) -> Option<Event>
    ensures value { result ≡ le_event_in subevent fields.entry }
    ensures spells { IfSome result (λ event.
        Spells event 0x3E (little_endian 1 subevent ++ fields.entry)) }
{
    match subevent {
        0x07.. => high_le_event(subevent, fields),
        _ => low_le_event(subevent, fields),
    }
}

/// The event with this code that is no LE event.
#[tactic(auto, unfolding(crate::specs::Reading::layouts))]
fn general_event(code: u8, mut fields: Fields) -> Option<Event>
    requires { length fields ≤ 255 }
    ensures value { result ≡ read_with (value_in layouts code) fields.entry }
    ensures spells { IfSome result (λ event. Spells event code fields.entry) }
{
    event_rows!(take_row fields code)
}

/// The event with this code and these parameters.
#[tactic(auto, unfolding(crate::specs::Reading::event_in))]
fn event(code: u8, parameters: &[u8]) -> Option<Event>
    requires { length parameters.now ≤ 255 }
    ensures value { result ≡ event_in code parameters.now }
    ensures spells { IfSome result (λ event. Spells event code parameters.now) }
{
    match (code, parameters) {
        (0x3E, []) => None,
        (0x3E, [subevent, rest @ ..]) => le_event(*subevent, Fields::new(rest)),
        _ => general_event(code, Fields::new(parameters)),
    }
}

/// The code and the parameters of a packet, which says how many octets of parameters it has.
fn packet_parts(octets: &[u8]) -> Option<(u8, &[u8])>
    ensures found { IfSome result (λ p. IsPacket octets.now p.0 p.1.now) }
    ensures none { IfNone result
        ((code : ℕ) (parameters : List ℕ) → ¬ IsPacket octets.now code parameters) }
{
    let [INDICATOR, code, length, parameters @ ..] = octets else {
        return None;
    };
    if parameters.len() != *length as usize {
        return None;
    }
    Some((*code, parameters))
}

/// The event whose packet these octets are.
fn packet(octets: &[u8]) -> Option<Event>
    ensures value { result ≡ event_of octets.now }
    ensures found { IfSome result (λ event. IsEvent event × (octets.now ≡ written event)) }
{
    let (code, parameters) = packet_parts(octets)?;
    event(code, parameters)
}

/// The event whose packet these octets are, all of them, indicator 4 first: what `write` gives for
/// it. None where no event is so written (Core 5.2, volume 4 part A, section 2, and part E,
/// section 5.4.4).
pub fn read(octets: &[u8]) -> Option<Event>
    ensures value { result ≡ event_of octets.now }
    ensures found { IfSome result (λ event. IsEvent event × (octets.now ≡ written event)) }
    ensures none { IfNone result ((event : Event) → IsEvent event → octets.now ≢ written event) }
    // Nothing else is read from the packet of an event.
    ensures only { (event : Event) → IsEvent event → octets.now ≡ written event
        → result ≡ Some event }
{
    packet(octets)
}
