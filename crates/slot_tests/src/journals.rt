//! Lines of a journal that say who has the radio.
use crate::words::{put_air, put_words};
use std::alloc::AllocError;
use std::str::Split;

/// The access address of the advertising channels, as a journal writes it.
const ADVERTISING: &str = "d6be898e";

/// Writes the lines of a journal on turns, on links that are opened and shut, on events and on
/// packets: of an event its number without the channel, and of a packet its side, the place of its
/// access address among those that were on the air, and the verdict.
pub(crate) fn put_shown(told: &mut String, journal: &str) -> Result<(), AllocError> {
    let mut seen = Vec::new(*told.allocator());
    for line in journal.lines() {
        put_if_shown(told, line, &mut seen)?;
    }
    Ok(())
}

fn put_if_shown<'a>(
    told: &mut String,
    line: &'a str,
    seen: &mut Vec<&'a str>,
) -> Result<(), AllocError> {
    let mut words = line.split(' ');
    match next_of(&mut words) {
        "turn" | "open" | "shut" => { put_words(told, &[line, "\n"]) }
        "enter" => {
            let (side, link, event) = (
                next_of(&mut words),
                next_of(&mut words),
                next_of(&mut words),
            );
            put_words(told, &["enter ", side, " ", link, " ", event, "\n"])
        }
        "air" => put_packet(told, &mut words, seen),
        _ => Ok(()),
    }
}

/// Writes the line of a packet with these words.
fn put_packet<'a>(
    told: &mut String,
    words: &mut Split<'a, char>,
    seen: &mut Vec<&'a str>,
) -> Result<(), AllocError> {
    let (side, _, octets) = (next_of(words), next_of(words), next_of(words));
    let (_, verdict) = (next_of(words), next_of(words));
    let place = place_of(octets.get(..8).unwrap_or(""), seen)?;
    put_air(told, side, place, verdict)
}

/// The place of an access address among those of links that were on the air, from 1; 0 for that of
/// the advertising channels.
fn place_of<'a>(access: &'a str, seen: &mut Vec<&'a str>) -> Result<usize, AllocError> {
    if access == ADVERTISING {
        return Ok(0);
    }
    let mut place: usize = 0;
    for other in seen.as_slice() {
        place = place.saturating_add(1);
        if *other == access {
            return Ok(place);
        }
    }
    seen.push(access)?;
    Ok(place.saturating_add(1))
}

/// The next word, or an empty one.
fn next_of<'a>(words: &mut Split<'a, char>) -> &'a str {
    words.next().unwrap_or("")
}
