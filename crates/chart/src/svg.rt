//! The text of elements.
ghost use Rattle.std.specs.Prelude.{◌≡◌, ◌++◌, OnOk, decimal};
ghost use Rattle.chart.specs.Svg.{content, escaped, escaped_octet, spelled_attribute, with_value};

use itoa::Buffer;
use std::alloc::AllocError;

/// Writes an octet of a text or of a value.
fn put_octet(svg: &mut Vec<u8>, octet: u8) -> Result<(), AllocError>
    ensures { OnOk result (svg.new.items ≡ svg.old.items ++ escaped_octet octet) }
{
    match octet {
        b'&' => svg.extend_from_slice(b"&amp;"),
        b'<' => svg.extend_from_slice(b"&lt;"),
        b'>' => svg.extend_from_slice(b"&gt;"),
        b'"' => svg.extend_from_slice(b"&quot;"),
        _ => svg.extend_from_slice(&[octet]),
    }
}

/// Writes a text or a value.
#[tactic(auto, unfolding(crate::specs::Svg::escaped))]
pub fn put_escaped(svg: &mut Vec<u8>, octets: &[u8]) -> Result<(), AllocError>
    ensures { OnOk result (svg.new.items ≡ svg.old.items ++ escaped octets.now) }
{
    for octet in octets {
        put_octet(svg, *octet)?;
    }
    Ok(())
}

/// Writes an attribute whose value is octets.
#[tactic(auto, unfolding(crate::specs::Svg::spelled_attribute))]
pub fn put_octets(svg: &mut Vec<u8>, name: &[u8], value: &[u8]) -> Result<(), AllocError>
    ensures { OnOk result (svg.new.items
        ≡ svg.old.items ++ spelled_attribute (with_value name.now value.now)) }
{
    svg.push(b' ')?;
    svg.extend_from_slice(name)?;
    svg.extend_from_slice(b"=\"")?;
    put_escaped(svg, value)?;
    svg.extend_from_slice(b"\"")
}

/// Writes an attribute.
pub fn put_attribute(svg: &mut Vec<u8>, name: &[u8], value: &str) -> Result<(), AllocError>
    ensures { OnOk result (svg.new.items
        ≡ svg.old.items ++ spelled_attribute (with_value name.now value.now)) }
{
    put_octets(svg, name, value.as_bytes())
}

/// Writes an attribute whose value is a number.
pub fn put_number(svg: &mut Vec<u8>, name: &[u8], number: u64) -> Result<(), AllocError>
    ensures { OnOk result (svg.new.items
        ≡ svg.old.items ++ spelled_attribute (with_value name.now (decimal number))) }
{
    let mut buffer = Buffer::new();
    put_attribute(svg, name, buffer.format(number))
}

/// Writes the end of a start tag, the text after it, and the end tag, with a newline.
#[tactic(auto, unfolding(crate::specs::Svg::content))]
pub fn put_content(svg: &mut Vec<u8>, words: &str, name: &[u8]) -> Result<(), AllocError>
    ensures { OnOk result (svg.new.items ≡ svg.old.items ++ content words.now name.now) }
{
    svg.push(b'>')?;
    put_escaped(svg, words.as_bytes())?;
    svg.extend_from_slice(b"</")?;
    svg.extend_from_slice(name)?;
    svg.extend_from_slice(b">\n")
}
