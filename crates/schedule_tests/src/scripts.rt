//! Scripts: each line has a call, and after " =" what it gives. In a text "|" ends a line.
use crate::calls::{take_full, take_sample};
use crate::texts::take_text;
use crate::words::take_words;
use std::alloc::{AllocError, Global};
use std::process::Abort;
use test_words::{Call, call_of, parts_of, rest_of};

/// Makes each call of a script, and compares what it gives.
pub(crate) fn check(rt: &impl Abort, alloc: Global, script: &str) -> Result<(), AllocError> {
    for line in script.lines() {
        let (call, want) = parts_of(line);
        let told = told_of(alloc, call)?;
        assert_eq!(rt; told.as_str(), want, "{line}");
    }
    Ok(())
}

/// What a call gives.
fn told_of(alloc: Global, text: &str) -> Result<String, AllocError> {
    let mut told = String::new(alloc);
    let call = call_of(text);
    take(call, rest_of(text, call.name), &mut told)?;
    Ok(told)
}

/// Makes a call: on a schedule whose text comes after its name, on words, or on a sample.
fn take(call: Call<'_>, rest: &str, told: &mut String) -> Result<(), AllocError> {
    match call.name {
        "whole" | "lines" | "words" | "pattern" => take_text(call, rest, told),
        "side_a" | "side_b" | "turn" | "fate" => take_full(call, told),
        "pass" | "lost" | "damage" | "fault" => take_sample(call, told),
        _ => take_words(call, rest, told),
    }
}
