//! Words of lines.
use std::alloc::AllocError;
use test_words::put_number;

/// Appends words, one right after another.
pub(crate) fn put_words(told: &mut String, words: &[&str]) -> Result<(), AllocError> {
    for word in words {
        told.push_str(word)?;
    }
    Ok(())
}

/// Writes that a packet of a side is on the air: the place of its access address among those that were
/// on the air, from 1, or 0 for that of the advertising channels, and the verdict on it.
pub(crate) fn put_air(
    told: &mut String,
    side: &str,
    place: usize,
    verdict: &str,
) -> Result<(), AllocError> {
    put_words(told, &["air ", side])?;
    put_number(told, place as u64)?;
    put_words(told, &[" ", verdict, "\n"])
}
