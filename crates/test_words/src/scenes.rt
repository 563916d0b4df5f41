//! Scripts on a scene.
use crate::reading::{Call, parts_of, side_and_call};
use crate::writing::decimal_of;
use std::alloc::{AllocError, Global};

/// What the calls of a script are made on.
pub trait TakesCalls {
    /// Makes a call on a side, and writes what it gives.
    fn take(&mut self, side: &str, call: Call<'_>, told: &mut String) -> Result<(), AllocError>;
}

/// The first line of a script whose call gives something else than the line says, and what it
/// gives; or nothing. Numbers after 0x are hexadecimal in what a line says.
pub fn first_wrong<S: TakesCalls>(
    scene: &mut S,
    alloc: Global,
    script: &str,
) -> Result<String, AllocError> {
    for line in script.lines() {
        let wrong = wrong_of(scene, alloc, line)?;
        if !wrong.is_empty() {
            return Ok(wrong);
        }
    }
    Ok(String::new(alloc))
}

/// A line and what its call gives, if that is something else than the line says.
fn wrong_of<S: TakesCalls>(scene: &mut S, alloc: Global, line: &str) -> Result<String, AllocError> {
    let (text, want) = parts_of(line);
    let (told, want) = (told_of(scene, alloc, text)?, decimal_of(alloc, want)?);
    let mut wrong = String::new(alloc);
    if told.as_str() != want.as_str() {
        wrong.push_str(line)?;
        wrong.push_str(" but gives")?;
        wrong.push_str(told.as_str())?;
    }
    Ok(wrong)
}

/// What a call gives.
fn told_of<S: TakesCalls>(scene: &mut S, alloc: Global, text: &str) -> Result<String, AllocError> {
    let mut told = String::new(alloc);
    let (side, call) = side_and_call(text);
    scene.take(side, call, &mut told)?;
    Ok(told)
}
