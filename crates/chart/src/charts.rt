//! The chart of a journal, whole or in parts.
ghost use Rattle.std.specs.Prelude.{◌≡◌, ◌+◌, ◌++◌, ◌<◌, ◌≤◌, ◌^◌, OnOk, IfOk, length};
ghost use Rattle.chart.specs.Chart.{columns, damaged, drawn_last, end_text, event_sample, frame};
ghost use Rattle.chart.specs.Chart.{heading, life, place_after_all, rows_text, sample, start_text};
ghost use Rattle.chart.specs.Chart.{style, undamaged};
ghost use Rattle.chart.specs.Svg.{all_spelled, document_start, spelled};

use crate::layout::{
    LEGEND, LEGEND_BAND, LEGEND_FOOT, LEGEND_HEIGHT, LIFE_A, LIFE_B, LIFE_TOP, NAMES, SAMPLE,
    STYLE, TIMES, WIDTH,
};
use crate::places::{Place, top_of};
use crate::rows::{put_lines, put_turns};
use crate::shapes::{life_line, put_band, put_path, put_text};
use crate::svg::{put_attribute, put_content, put_number};
use ble_base::Side;
use journal::{Entry, Octets};
use std::alloc::{AllocError, Global};

/// The lines of a packet in the legend.
const PASS: &str = "h40m-9 -4l9 4l-9 4";

const LOST: &str = "h30m-5 -5l10 10m0 -10l-10 10";

const DAMAGED: &str = "h15m-5 -5l10 10m0 -10l-10 10m5 -5h25m-9 -4l9 4l-9 4";

/// Writes a packet in the legend, with its words.
#[tactic(auto, using(crate::proofs::Spelling::spelling), unfolding(crate::specs::Chart::sample))]
fn put_sample(
    alloc: Global,
    svg: &mut Vec<u8>,
    x: u64,
    course: &str,
    class: &str,
    words: &str,
) -> Result<(), AllocError>
    requires { x < 2 ^ 32 }
    ensures { OnOk result (svg.new.items
        ≡ svg.old.items ++ all_spelled (sample x course.now class.now words.now)) }
{
    put_path(alloc, svg, x, LEGEND, course, class)?;
    put_text(svg, x + 48, LEGEND_FOOT, "legend", words)
}

/// Writes the legend's packets that were not damaged.
fn put_undamaged(alloc: Global, svg: &mut Vec<u8>) -> Result<(), AllocError>
    ensures { OnOk result (svg.new.items ≡ svg.old.items ++ all_spelled undamaged) }
{
    put_sample(alloc, svg, 104, PASS, "pass good", "good")?;
    put_sample(alloc, svg, 230, PASS, "pass missed", "missed")?;
    put_sample(alloc, svg, 370, LOST, "lost missed", "lost")
}

/// Writes the legend's packets that were damaged.
fn put_damaged(alloc: Global, svg: &mut Vec<u8>) -> Result<(), AllocError>
    ensures { OnOk result (svg.new.items ≡ svg.old.items ++ all_spelled damaged) }
{
    put_sample(
        alloc,
        svg,
        490,
        DAMAGED,
        "damaged broken",
        "damaged, broken",
    )?;
    put_sample(
        alloc,
        svg,
        690,
        DAMAGED,
        "damaged forged",
        "damaged, forged",
    )
}

/// Writes the legend's connection event.
fn put_event_sample(svg: &mut Vec<u8>) -> Result<(), AllocError>
    ensures { OnOk result (svg.new.items ≡ svg.old.items ++ all_spelled event_sample) }
{
    put_band(svg, 890, LEGEND_BAND, SAMPLE, LEGEND_HEIGHT)?;
    put_text(svg, 938, LEGEND_FOOT, "legend", "connection event")
}

/// Writes the names of the columns.
#[tactic(auto, using(crate::proofs::Spelling::spelling), unfolding(crate::specs::Chart::columns))]
fn put_columns(svg: &mut Vec<u8>) -> Result<(), AllocError>
    ensures { OnOk result (svg.new.items ≡ svg.old.items ++ all_spelled columns) }
{
    put_text(svg, TIMES, NAMES, "slot", "1.25 ms")?;
    put_text(svg, LIFE_A, NAMES, "side", "a")?;
    put_text(svg, LIFE_B, NAMES, "side", "b")
}

/// Writes how the elements look.
#[tactic(auto, unfolding(crate::specs::Svg::spelled, crate::specs::Chart::style))]
fn put_style(svg: &mut Vec<u8>) -> Result<(), AllocError>
    ensures { OnOk result (svg.new.items ≡ svg.old.items ++ spelled style) }
{
    svg.extend_from_slice(b"<style")?;
    put_content(svg, STYLE, b"style")
}

/// Writes the start of a drawing of this height.
#[tactic(auto, unfolding(crate::specs::Svg::document_start))]
fn put_frame(svg: &mut Vec<u8>, height: u64) -> Result<(), AllocError>
    ensures { OnOk result (svg.new.items ≡ svg.old.items ++ document_start (frame height)) }
{
    svg.extend_from_slice(b"<svg")?;
    put_attribute(svg, b"xmlns", "http://www.w3.org/2000/svg")?;
    put_number(svg, b"width", WIDTH)?;
    put_number(svg, b"height", height)?;
    svg.extend_from_slice(b">\n")
}

/// Writes all that is above the first row.
#[tactic(auto, using(crate::proofs::Spelling::spelling))]
fn put_heading(alloc: Global, svg: &mut Vec<u8>) -> Result<(), AllocError>
    ensures { OnOk result (svg.new.items ≡ svg.old.items ++ all_spelled heading) }
{
    put_style(svg)?;
    put_undamaged(alloc, svg)?;
    put_damaged(alloc, svg)?;
    put_event_sample(svg)?;
    put_columns(svg)
}

/// Writes the life line of a side.
fn put_life(alloc: Global, svg: &mut Vec<u8>, side: Side, foot: u64) -> Result<(), AllocError>
    ensures { OnOk result (svg.new.items ≡ svg.old.items ++ spelled (life side foot)) }
{
    let course = format!(in alloc; "V{foot}")?;
    put_path(alloc, svg, life_line(side), LIFE_TOP, &course, "life")
}

/// Writes what comes after the last line.
#[tactic(auto, using(crate::proofs::Spelling::spelling))]
fn put_last(alloc: Global, svg: &mut Vec<u8>, place: Place) -> Result<(), AllocError>
    requires { place.row < 2 ^ 32 }
    ensures { OnOk result (svg.new.items ≡ svg.old.items ++ all_spelled (drawn_last place)) }
{
    put_turns(alloc, svg, place.row, place.waiting)?;
    let foot = top_of(place.last_row());
    put_life(alloc, svg, Side::A, foot)?;
    put_life(alloc, svg, Side::B, foot)
}

/// The text of a chart up to its first row, where `last` is the place after the last line.
pub fn chart_start(alloc: Global, last: Place) -> Result<Octets, AllocError>
    requires { last.row < 2 ^ 32 }
    ensures { IfOk result (λ written. written ≡ start_text last) }
{
    let mut svg = Vec::new(alloc);
    put_frame(&mut svg, last.height())?;
    put_heading(alloc, &mut svg)?;
    Ok(Octets::from(svg))
}

/// The text of the rows of some lines, and the place after them.
pub fn chart_rows(
    alloc: Global,
    place: Place,
    entries: &[Entry],
) -> Result<(Octets, Place), AllocError>
    requires { place.row + place.waiting + length entries.now < 2 ^ 32 }
    ensures written { IfOk result (λ rows. rows.0 ≡ rows_text place entries.now) }
    ensures place { IfOk result (λ rows. rows.1 ≡ place_after_all place entries.now) }
{
    let mut svg = Vec::new(alloc);
    let last = put_lines(alloc, &mut svg, place, entries)?;
    Ok((Octets::from(svg), last))
}

/// The text of a chart after its last row.
pub fn chart_end(alloc: Global, last: Place) -> Result<Octets, AllocError>
    requires { last.row < 2 ^ 32 }
    ensures { IfOk result (λ written. written ≡ end_text last) }
{
    let mut svg = Vec::new(alloc);
    put_last(alloc, &mut svg, last)?;
    svg.extend_from_slice(b"</svg>\n")?;
    Ok(Octets::from(svg))
}
