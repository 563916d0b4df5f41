//! Events, each written into its octets.
ghost use Rattle.std.specs.Prelude.{◌≡◌, ◌≤◌, ◌-◌, [], set};
ghost use Rattle.arrayvec.specs.ArrayVec.{array_vec_len};
ghost use Rattle.wire_fields.specs.Field.{appended, AllFit};
ghost use Rattle.hci_evt.specs.Event.{code_of, parameters_of, written, IsEvent, IsWithinCapacity};
ghost use Rattle.hci_evt.specs.Groups.{IsHigh, IsMeta};

use crate::event::{Event, INDICATOR};
use crate::rows::event_rows;
use arrayvec::ArrayVec;
use wire_fields::{put_octets, put_u8, put_u16, put_u64};

/// Appends one field, by its kind.
macro_rules! put {
    ($packet:ident u8 $field:ident) => {
        put_u8($packet, *$field)
    };
    ($packet:ident u16 $field:ident) => {
        put_u16($packet, *$field)
    };
    ($packet:ident u64 $field:ident) => {
        put_u64($packet, *$field)
    };
    ($packet:ident [$count:literal] $field:ident) => {
        put_octets($packet, $field)
    };
}

/// Appends the fields of an event that is no LE meta event.
macro_rules! put_rows {
    (
        $packet:ident $event:ident;
        masked { $($name:ident $code:literal $bit:literal: $($kind:tt $field:ident),*;)* }
        unmasked { $($status:ident $status_code:literal: $($status_kind:tt $status_field:ident),*;)* }
        $($le:ident { $($rest:tt)* })*
    ) => {
        match $event {
            $(Event::$name { $($field),* } => {
                $(put!($packet $kind $field);)*
            })*
            $(Event::$status { $($status_field),* } => {
                $(put!($packet $status_kind $status_field);)*
            })*
            Event::CommandComplete { number, opcode, fields } => {
                put_u8($packet, *number);
                put_u16($packet, *opcode);
                put_octets($packet, fields.as_slice());
            }
            Event::CompletedPackets { handle, count } => {
                put_u8($packet, 1);
                put_u16($packet, *handle);
                put_u16($packet, *count);
            }
            _ => put_low_parameters($packet, $event),
        }
    };
}

/// Appends the subevent code and the fields of an LE meta event with a subevent code below 07.
macro_rules! put_low_rows {
    (
        $packet:ident $event:ident;
        masked { $($masked:tt)* }
        unmasked { $($unmasked:tt)* }
        low { $($name:ident $subevent:literal $bit:literal: $($kind:tt $field:ident),*;)* }
        high { $($high:tt)* }
    ) => {
        match $event {
            $(Event::$name { $($field),* } => {
                put_u8($packet, $subevent);
                $(put!($packet $kind $field);)*
            })*
            Event::AdvertisingReport { kind, address_kind, address, octets, rssi } => {
                put_u8($packet, 0x02);
                put_u8($packet, 1);
                put_u8($packet, *kind);
                put_u8($packet, *address_kind);
                put_octets($packet, address);
                put_u8($packet, octets.len() as u8);
                put_octets($packet, octets.as_slice());
                put_u8($packet, *rssi);
            }
            _ => put_high_parameters($packet, $event),
        }
    };
}

/// Appends the subevent code and the fields of an LE meta event with a subevent code from 07 on.
macro_rules! put_high_rows {
    (
        $packet:ident $event:ident;
        masked { $($masked:tt)* }
        unmasked { $($unmasked:tt)* }
        low { $($low:tt)* }
        high { $($name:ident $subevent:literal $bit:literal: $($kind:tt $field:ident),*;)* }
    ) => {
        match $event {
            $(Event::$name { $($field),* } => {
                put_u8($packet, $subevent);
                $(put!($packet $kind $field);)*
            })*
            _ => unreachable!(),
        }
    };
}

/// The code of each row, and of the events that are no row.
macro_rules! codes {
    (
        $event:ident;
        masked { $($name:ident $code:literal $bit:literal: $($kind:tt $field:ident),*;)* }
        unmasked { $($status:ident $status_code:literal: $($status_kind:tt $status_field:ident),*;)* }
        $($le:ident { $($rest:tt)* })*
    ) => {
        match $event {
            $(Event::$name { .. } => $code,)*
            $(Event::$status { .. } => $status_code,)*
            Event::CommandComplete { .. } => 0x0E,
            Event::CompletedPackets { .. } => 0x13,
            _ => 0x3E,
        }
    };
}

/// Appends the parameters of an LE meta event with a subevent code from 07 on to its header.
fn put_high_parameters(packet: &mut ArrayVec<u8, 260>, event: &Event)
    requires header { array_vec_len packet.old ≡ 3 }
    requires high { IsHigh event.now }
    ensures items { packet.new.items ≡ appended packet.old.items (parameters_of event.now) }
    ensures few { array_vec_len packet.new ≤ 258 }
    ensures fits { AllFit (parameters_of event.now) }
    ensures room { IsWithinCapacity event.now }
{
    event_rows!(put_high_rows packet event);
}

/// Appends the parameters of an LE meta event to its header.
fn put_low_parameters(packet: &mut ArrayVec<u8, 260>, event: &Event)
    requires header { array_vec_len packet.old ≡ 3 }
    requires le { IsMeta event.now }
    ensures items { packet.new.items ≡ appended packet.old.items (parameters_of event.now) }
    ensures few { array_vec_len packet.new ≤ 258 }
    ensures fits { AllFit (parameters_of event.now) }
    ensures room { IsWithinCapacity event.now }
{
    event_rows!(put_low_rows packet event);
}

/// Appends the parameters of the event to its header: the subevent code of an LE event, and then the
/// fields.
fn put_parameters(packet: &mut ArrayVec<u8, 260>, event: &Event)
    requires { array_vec_len packet.old ≡ 3 }
    ensures items { packet.new.items ≡ appended packet.old.items (parameters_of event.now) }
    ensures few { array_vec_len packet.new ≤ 258 }
    ensures fits { AllFit (parameters_of event.now) }
    ensures room { IsWithinCapacity event.now }
{
    event_rows!(put_rows packet event);
}

/// The event code.
fn code(event: &Event) -> u8
    ensures { result ≡ code_of event.now }
{
    event_rows!(codes event)
}

/// Writes the number of octets after the header into its third place.
fn set_length(packet: &mut ArrayVec<u8, 260>)
    requires header { 3 ≤ array_vec_len packet.old }
    requires few { array_vec_len packet.old ≤ 258 }
    ensures { packet.new.items ≡ set packet.old.items 2 (array_vec_len packet.old - 3) }
{
    let octets = packet.as_mut_slice();
    octets[2] = (octets.len() - 3) as u8;
}

/// Writes the packet of the event into an empty one: indicator 4, the event code, one octet of
/// length, and the parameters (Core 5.2, volume 4 part A, section 2, and part E, section 5.4.4).
///
/// `read` gives the event back from the packet.
pub fn put_event(packet: &mut ArrayVec<u8, 260>, event: &Event)
    requires { packet.old.items ≡ [] }
    ensures items { packet.new.items ≡ written event.now }
    ensures is_event { IsEvent event.now }
{
    put_u8(packet, INDICATOR);
    put_u8(packet, code(event));
    put_u8(packet, 0);
    put_parameters(packet, event);
    set_length(packet);
}

/// The packet of the event, as `put_event` writes it.
pub fn write(event: &Event) -> ArrayVec<u8, 260>
    ensures items { result.items ≡ written event.now }
    ensures is_event { IsEvent event.now }
{
    let mut packet = ArrayVec::new();
    put_event(&mut packet, event);
    packet
}
