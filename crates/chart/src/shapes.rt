//! The elements that a chart is made of.
ghost use Rattle.std.specs.Prelude.{◌≡◌, ◌++◌, ◌<◌, OnOk, IfOk, decimal, string_bytes};
ghost use Rattle.chart.specs.Shapes.{band_at, course_of, life_line, mark_class, note_class};
ghost use Rattle.chart.specs.Shapes.{note_place, packet_class, packet_line, path_from, text_at};
ghost use Rattle.chart.specs.Svg.{spelled};

use crate::layout::{LIFE_A, LIFE_B, NOTES_A, NOTES_B};
use crate::svg::{put_attribute, put_content, put_number, put_octets};
use crate::words::verdict_name;
use ble_base::{Side, Verdict};
use journal::Mark;
use std::alloc::{AllocError, Global};

/// Writes words at a place.
#[tactic(auto, unfolding(crate::specs::Svg::spelled, crate::specs::Shapes::text_at))]
pub fn put_text(
    svg: &mut Vec<u8>,
    x: u64,
    y: u64,
    class: &str,
    words: &str,
) -> Result<(), AllocError>
    ensures { OnOk result (svg.new.items
        ≡ svg.old.items ++ spelled (text_at x y class.now words.now)) }
{
    svg.extend_from_slice(b"<text")?;
    put_number(svg, b"x", x)?;
    put_number(svg, b"y", y)?;
    put_attribute(svg, b"class", class)?;
    put_content(svg, words, b"text")
}

/// Writes a band of this size, with its upper left corner at a place.
#[tactic(auto, unfolding(crate::specs::Svg::spelled, crate::specs::Shapes::band_at))]
pub fn put_band(
    svg: &mut Vec<u8>,
    x: u64,
    y: u64,
    width: u64,
    height: u64,
) -> Result<(), AllocError>
    ensures { OnOk result (svg.new.items ≡ svg.old.items ++ spelled (band_at x y width height)) }
{
    svg.extend_from_slice(b"<rect")?;
    put_number(svg, b"x", x)?;
    put_number(svg, b"y", y)?;
    put_number(svg, b"width", width)?;
    put_number(svg, b"height", height)?;
    put_attribute(svg, b"class", "event")?;
    put_content(svg, "", b"rect")
}

/// Writes a line from a place on.
#[tactic(auto, unfolding(crate::specs::Svg::spelled, crate::specs::Shapes::path_from))]
pub fn put_path(
    alloc: Global,
    svg: &mut Vec<u8>,
    x: u64,
    y: u64,
    course: &str,
    class: &str,
) -> Result<(), AllocError>
    ensures { OnOk result (svg.new.items
        ≡ svg.old.items ++ spelled (path_from x y course.now class.now)) }
{
    let path = format!(in alloc; "M{x} {y}{course}")?;
    svg.extend_from_slice(b"<path")?;
    put_attribute(svg, b"d", &path)?;
    put_attribute(svg, b"class", class)?;
    put_content(svg, "", b"path")
}

/// The life line of a side.
pub fn life_line(side: Side) -> u64
    ensures { result ≡ life_line side }
{
    match side {
        Side::A => LIFE_A,
        Side::B => LIFE_B,
    }
}

/// Where the notes of a side are.
pub fn note_place(side: Side) -> u64
    ensures { result ≡ note_place side }
{
    match side {
        Side::A => NOTES_A,
        Side::B => NOTES_B,
    }
}

/// How the notes of a side look.
pub fn note_class(side: Side) -> &'static str
    ensures { result.now ≡ note_class side }
{
    match side {
        Side::A => "note-a",
        Side::B => "note-b",
    }
}

/// The course of a packet from the life line of its sender.
fn course_of(side: Side, fate: &Mark) -> &'static str
    ensures { result.now ≡ course_of side fate.now }
{
    match (side, fate) {
        (Side::A, Mark::Pass) => "h440m-9 -4l9 4l-9 4",
        (Side::A, Mark::Lost) => "h60m-5 -5l10 10m0 -10l-10 10",
        (Side::A, Mark::Damage { .. }) => "h60m-5 -5l10 10m0 -10l-10 10m5 -5h380m-9 -4l9 4l-9 4",
        (Side::B, Mark::Pass) => "h-440m9 -4l-9 4l9 4",
        (Side::B, Mark::Lost) => "h-60m-5 -5l10 10m0 -10l-10 10",
        (Side::B, Mark::Damage { .. }) => "h-60m-5 -5l10 10m0 -10l-10 10m5 -5h-380m9 -4l-9 4l9 4",
    }
}

/// How the line of a packet with this fate looks.
fn mark_class(fate: &Mark) -> &'static str
    ensures { result.now ≡ mark_class fate.now }
{
    match fate {
        Mark::Pass => "pass ",
        Mark::Lost => "lost ",
        Mark::Damage { .. } => "damaged ",
    }
}

/// How the line of a packet looks.
fn packet_class(alloc: Global, fate: &Mark, verdict: Verdict) -> Result<String, AllocError>
    ensures { IfOk result (λ class. string_bytes class ≡ packet_class fate.now verdict) }
{
    let (fate, verdict) = (mark_class(fate), verdict_name(verdict));
    format!(in alloc; "{fate}{verdict}")
}

/// Writes the line of a packet, which names the line of the journal.
#[tactic(auto, unfolding(crate::specs::Svg::spelled, crate::specs::Shapes::packet_line))]
pub fn put_packet_line(
    alloc: Global,
    svg: &mut Vec<u8>,
    y: u64,
    side: Side,
    fate: &Mark,
    verdict: Verdict,
    line: &[u8],
) -> Result<(), AllocError>
    ensures { OnOk result (svg.new.items
        ≡ svg.old.items ++ spelled (packet_line y side fate.now verdict line.now)) }
{
    let (x, course) = (life_line(side), course_of(side, fate));
    let path = format!(in alloc; "M{x} {y}{course}")?;
    let class = packet_class(alloc, fate, verdict)?;
    svg.extend_from_slice(b"<path")?;
    put_attribute(svg, b"d", &path)?;
    put_attribute(svg, b"class", &class)?;
    put_octets(svg, b"aria-label", line)?;
    put_content(svg, "", b"path")
}
