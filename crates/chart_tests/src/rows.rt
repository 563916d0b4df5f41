//! Tests of what no contract says: written-out rows. A second program made the expected texts.
ghost use Rattle.std.specs.Prelude.{◌<◌, ◌^◌, length};

use chart::{Place, chart_end, chart_rows, chart_start};
use journal::{Entry, Journal, Octets};
use std::alloc::{AllocError, Global};
use std::process::Abort;
use std::test::Fail;

/// Compares the rows of a journal, of which there are a text and the number of its lines.
pub(crate) fn check(
    rt: &impl Abort,
    alloc: Global,
    text: &[u8],
    count: u16,
    wanted: &[u8],
) -> Result<(), AllocError>
    requires { length text.now < 2 ^ 32 }
{
    let rows = rows_of(alloc, text, count)?;
    assert_eq!(rt; rows.as_slice(), wanted);
    Ok(())
}

/// The rows of a text that has this number of lines, all of a journal.
fn rows_of(alloc: Global, text: &[u8], count: u16) -> Result<Octets, AllocError>
    requires { length text.now < 2 ^ 32 }
{
    match Journal::read(alloc, text) {
        Ok(journal) if journal.len() == usize::from(count) => first_rows(alloc, journal.as_slice()),
        _ => Octets::copy(alloc, b"not a journal with this number of lines"),
    }
}

/// The rows from the first place on.
fn first_rows(alloc: Global, entries: &[Entry]) -> Result<Octets, AllocError>
    requires { length entries.now < 65536 }
{
    let (rows, _) = chart_rows(alloc, Place::first(), entries)?;
    Ok(rows)
}

const EVENT: &[u8] = b"\
turn 0 ++
open a 1 0 central
turn 1 ++
turn 2 ++
enter b 1 0 25
air a 25 2941767150fa1ee550 . good
air b 25 2941767154facde350 x missed
turn 3 ++
";

const EVENT_ROWS: &[u8] = b"\
<text x=\"8\" y=\"91\" class=\"slot\">slot 0</text>
<text x=\"408\" y=\"91\" class=\"note-a\">open: link 1, handle 0, central</text>
<text x=\"8\" y=\"115\" class=\"idle\">idle: 1</text>
<text x=\"8\" y=\"139\" class=\"slot\">slot 2</text>
<rect x=\"104\" y=\"124\" width=\"1068\" height=\"24\" class=\"event\"></rect>
<text x=\"872\" y=\"139\" class=\"note-b\">event 0: link 1, channel 25</text>
<rect x=\"104\" y=\"148\" width=\"1068\" height=\"24\" class=\"event\"></rect>
<path d=\"M420 166h440m-9 -4l9 4l-9 4\" class=\"pass good\" aria-label=\"air a 25 \
    2941767150fa1ee550 . good\"></path>
<text x=\"640\" y=\"158\" class=\"packet\">channel 25: empty SN 0 NESN 0 MD 0, 0 octets, good</text>
<rect x=\"104\" y=\"172\" width=\"1068\" height=\"24\" class=\"event\"></rect>
<path d=\"M860 190h-60m-5 -5l10 10m0 -10l-10 10\" class=\"lost missed\" aria-label=\"air b 25 \
    2941767154facde350 x missed\"></path>
<text x=\"640\" y=\"182\" class=\"packet\">channel 25: empty SN 0 NESN 1 MD 0, 0 octets, lost, \
    missed</text>
";

#[test]
fn draws_a_connection_event(rt: HostRuntime) -> Result<(), AllocError> {
    check(&rt, rt.alloc(), EVENT, 8, EVENT_ROWS)
}

const NO_HEADERS: &[u8] = b"\
air a 200 d6be898e8fd45da13d499970f84ada e6:01 broken
air b 37 d6be89 . forged
up b 040e04010a200000112233
";

const NO_HEADERS_ROWS: &[u8] = b"\
<path d=\"M420 94h60m-5 -5l10 10m0 -10l-10 10m5 -5h380m-9 -4l9 4l-9 4\" class=\"damaged broken\" \
    aria-label=\"air a 200 d6be898e8fd45da13d499970f84ada e6:01 broken\"></path>
<text x=\"640\" y=\"86\" class=\"packet\">channel 200: no PDU, damaged, broken</text>
<path d=\"M860 118h-440m9 -4l-9 4l9 4\" class=\"pass forged\" aria-label=\"air b 37 d6be89 . \
    forged\"></path>
<text x=\"640\" y=\"110\" class=\"packet\">channel 37: no PDU, forged</text>
<text x=\"872\" y=\"139\" class=\"note-b\">up 040e04010a2000001122.., 11 octets</text>
";

#[test]
fn draws_packets_without_a_header(rt: HostRuntime) -> Result<(), AllocError> {
    check(&rt, rt.alloc(), NO_HEADERS, 3, NO_HEADERS_ROWS)
}

#[test]
fn ends_with_idle_turns_and_life_lines(rt: HostRuntime) -> Result<(), Fail> {
    let last = Place {
        row: 5,
        waiting: 1,
        slot: 3,
    };
    let end = chart_end(rt.alloc(), last)?;
    let wanted = b"<text x=\"8\" y=\"211\" class=\"idle\">idle: 1</text>
<path d=\"M420 66V220\" class=\"life\"></path>
<path d=\"M860 66V220\" class=\"life\"></path>
</svg>
";
    assert_eq!(rt; end.as_slice(), wanted.as_slice());
    Ok(())
}

#[test]
fn starts_with_its_size(rt: HostRuntime) -> Result<(), Fail> {
    let last = Place {
        row: 5,
        waiting: 1,
        slot: 3,
    };
    let start = chart_start(rt.alloc(), last)?;
    let wanted = b"<svg xmlns=\"http://www.w3.org/2000/svg\" width=\"1180\" height=\"236\">
<style>";
    assert!(rt; start.as_slice().starts_with(wanted));
    Ok(())
}
