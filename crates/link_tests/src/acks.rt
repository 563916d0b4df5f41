//! An exchange by hand, and each law once.
use crate::scripts::check;
use ack_bit::AckEnd;
use ack_bit::laws::*;
use data_pdu::DataHeader;
use std::alloc::AllocError;
use test_words::{Call, put_answer, put_value};

/// A packet whose PDU is empty.
fn packet(nesn: bool, sn: bool) -> DataHeader {
    DataHeader {
        llid: 1,
        nesn,
        sn,
        md: false,
        length: 0,
    }
}

/// Makes a call on the acknowledgement state of an end.
pub(crate) fn take(end: &mut AckEnd, call: Call<'_>, told: &mut String) -> Result<(), AllocError> {
    match call.name {
        "is_first" => put_answer(told, *end == AckEnd::default()),
        "send" => put_value(told, &end.header(1, false, 0)),
        "hear" => hear(end, call.words, told),
        _ => told.push_str(" which call?"),
    }
}

/// A packet with this NESN and SN arrives, and there is room or not: whether it is new, and what it
/// says.
fn hear(end: &mut AckEnd, words: [&str; 8], told: &mut String) -> Result<(), AllocError> {
    let [nesn, sn, room, ..] = words;
    let header = packet(nesn == "1", sn == "1");
    put_answer(told, end.is_new(header))?;
    put_value(told, &end.receive(header, room == "room"))
}

/// In the third packet the PDU is new, and there is no room for it.
const EXCHANGE: &str = "\
ack is_first = yes
ack send = DataHeader { llid: 1, nesn: false, sn: false, md: false, length: 0 }
ack hear 0 0 room = yes AckSeen { fresh: true, acked: false }
ack send = DataHeader { llid: 1, nesn: true, sn: false, md: false, length: 0 }
ack hear 0 0 room = no AckSeen { fresh: false, acked: false }
ack send = DataHeader { llid: 1, nesn: true, sn: false, md: false, length: 0 }
ack hear 1 1 full = yes AckSeen { fresh: true, acked: true }
ack send = DataHeader { llid: 1, nesn: true, sn: true, md: false, length: 0 }
ack hear 1 1 room = yes AckSeen { fresh: true, acked: false }
ack send = DataHeader { llid: 1, nesn: false, sn: true, md: false, length: 0 }
ack hear 1 1 room = no AckSeen { fresh: false, acked: false }
ack send = DataHeader { llid: 1, nesn: false, sn: true, md: false, length: 0 }
ack hear 0 0 room = yes AckSeen { fresh: true, acked: true }
ack send = DataHeader { llid: 1, nesn: true, sn: false, md: false, length: 0 }
";

#[test]
fn bits_go_as_in_an_exchange(rt: HostRuntime) -> Result<(), AllocError> {
    check(&rt, rt.alloc(), EXCHANGE)?;
    numbers_are_counts();
    ends_stay_in_step::<u8>();
    each_pdu_at_most_once_and_in_order::<u8>();
    bits_are_counts::<u8>();
    packets_carry_the_last_pdu_sent::<u8>();
    bits_say_what_was_accepted::<u8>();
    arrival_acknowledges_all_accepted::<u8>();
    nonempty_pdus_at_most_once_and_in_order::<u8>();
    Ok(())
}
