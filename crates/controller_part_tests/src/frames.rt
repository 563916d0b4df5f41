//! The packets of written-out octets of a host.
use crate::scripts::check;
use h4_frames::{
    Fed, Framer, HostPacket, frames_are_in_order, frames_are_the_division, frames_grow,
    results_are_the_frames,
};
use std::alloc::AllocError;
use test_words::{Call, octets_of, put_answer, put_number, put_octets};

/// A new framer, or the octets that one takes: its results, each after the number of octets up to
/// its end.
pub(crate) fn take(
    framer: &mut Framer,
    call: Call<'_>,
    told: &mut String,
) -> Result<(), AllocError> {
    if call.name == "new" {
        *framer = Framer::new();
    }
    let octets = octets_of(*told.allocator(), call.words[0]);
    for (place, octet) in octets.as_slice().iter().enumerate() {
        put_fed(told, place.saturating_add(1), &framer.feed(*octet))?;
    }
    Ok(())
}

/// Writes what an octet brings: of data the handle, whether it starts a message, the length and the
/// octets that are kept.
fn put_fed(told: &mut String, place: usize, fed: &Fed) -> Result<(), AllocError> {
    match fed {
        Fed::More => Ok(()),
        Fed::LostSync => put_named(told, place, " lost"),
        Fed::Packet(HostPacket::Command { opcode, body }) => {
            put_named(told, place, " command")?;
            put_octets(told, &opcode.to_be_bytes())?;
            put_octets(told, body.as_slice())
        }
        Fed::Packet(
            HostPacket::Acl {
                handle,
                start,
                length,
                body,
            },
        ) => {
            put_named(told, place, " data")?;
            put_octets(told, &handle.to_be_bytes())?;
            put_answer(told, *start)?;
            put_number(told, u64::from(*length))?;
            put_octets(told, body.as_slice())
        }
    }
}

/// Writes the number of octets, and what they bring.
fn put_named(told: &mut String, place: usize, name: &str) -> Result<(), AllocError> {
    put_number(told, place as u64)?;
    told.push_str(name)
}

const FRAMES: &str = "\
frames new 01030c00 = 4 command 0c03 
frames new 01ffff00 = 4 command ffff 
frames new 01030c0100 = 5 command 0c03 00
frames new 01030c0001011002aabb = 4 command 0c03  10 command 1001 aabb
frames new 0241200000 = 5 data 0041 yes 0 
frames new 02ffde010007 = 6 data 0eff no 1 07
frames new 07aa01030c00 = 1 lost 6 command 0c03 
frames new 040101030c00 = 1 lost 6 command 0c03 
frames new 0001030c0702 = 1 lost
# The first 251 octets of 300 are kept.
frames new 0201102c0109090909090909090909090909090909090909090909090909090909090909090909090909090\
    9090909090909090909090909090909090909090909090909090909090909090909090909090909090909090909090\
    9090909090909090909090909090909090909090909090909090909090909090909090909090909090909090909090\
    9090909090909090909090909090909090909090909090909090909090909090909090909090909090909090909090\
    9090909090909090909090909090909090909090909090909090909090909090909090909090909090909090909090\
    9090909090909090909090909090909090909090909090909090909090909090909090909090909090909090909090\
    90909090909090909090909090909090909090909090909090909 = 305 data 0001 no 300 \
    0909090909090909090909090909090909090909090909090909090909090909090909090909090909090909090909\
    0909090909090909090909090909090909090909090909090909090909090909090909090909090909090909090909\
    0909090909090909090909090909090909090909090909090909090909090909090909090909090909090909090909\
    0909090909090909090909090909090909090909090909090909090909090909090909090909090909090909090909\
    0909090909090909090909090909090909090909090909090909090909090909090909090909090909090909090909\
    09090909090909090909090909090909
# A framer goes on where it stopped.
frames new 0103 =
frames feed 0c =
frames feed 00 = 1 command 0c03 
";

#[test]
fn frames_what_a_host_sends(rt: HostRuntime) -> Result<(), AllocError> {
    check(&rt, rt.alloc(), FRAMES)?;
    frames_are_the_division();
    results_are_the_frames();
    frames_grow();
    frames_are_in_order();
    Ok(())
}
