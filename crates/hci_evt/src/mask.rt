//! Which bit of the masks lets an event through.
ghost use Rattle.std.specs.Prelude.{◌≡◌};
ghost use Rattle.hci_evt.specs.Event.{mask_bit_of};

use crate::event::{Event, MaskBit};
use crate::rows::event_rows;

/// The bit of each row, and of the events that are no row.
macro_rules! mask_bits {
    (
        $event:ident;
        masked { $($name:ident $code:literal $bit:literal: $($kind:tt $field:ident),*;)* }
        unmasked { $($status:ident $status_code:literal: $($status_kind:tt $status_field:ident),*;)* }
        low { $($low:ident $low_code:literal $low_bit:literal: $($low_kind:tt $low_field:ident),*;)* }
        high { $($high:ident $high_code:literal $high_bit:literal: $($high_kind:tt $high_field:ident),*;)* }
    ) => {
        match $event {
            $(Event::$name { .. } => MaskBit::Main($bit),)*
            $(Event::$status { .. } => MaskBit::Always,)*
            Event::CommandComplete { .. } | Event::CompletedPackets { .. } => MaskBit::Always,
            $(Event::$low { .. } => MaskBit::Meta($low_bit),)*
            $(Event::$high { .. } => MaskBit::Meta($high_bit),)*
            Event::AdvertisingReport { .. } => MaskBit::Meta(1),
        }
    };
}

/// The bit that lets the event through (Core 5.2, volume 4 part E, sections 7.3.1 and 7.8.1).
pub fn mask_bit(event: &Event) -> MaskBit
    ensures { result ≡ mask_bit_of event.now }
{
    event_rows!(mask_bits event)
}
