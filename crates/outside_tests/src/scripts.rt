//! Scripts: calls on files and sinks in memory and of the system, each with what it gives.
use crate::reads::{put_breaking, put_endless, put_fault, put_read};
use crate::streams::{Narrow, stream_with};
use outside::{Files, MemFiles, MemSink, RealFiles, RealSink, Sink};
use std::alloc::{AllocError, Global};
use std::process::Abort;
use test_words::{Call, call_of, parts_of, put_number, put_text, put_value, rest_of, slot};

/// Files and a sink in memory, and a stream.
#[derive(Drop)]
struct Scene {
    files: MemFiles,
    sink: MemSink,
    stream: Narrow,
}

/// Each line has a call, and after " =" what it gives. Before the first line nothing is held,
/// written or planned to fail, and the stream has no room. Files of the system are those of a
/// runtime.
pub(crate) fn check(rt: &impl Abort, system: &HostRuntime, script: &str) -> Result<(), AllocError> {
    start(system.alloc()).run(rt, system, script)
}

/// The scene before the first line.
fn start(alloc: Global) -> Scene {
    Scene {
        files: MemFiles::new(alloc),
        sink: MemSink::new(alloc),
        stream: stream_with(alloc, 0, ""),
    }
}

impl Scene {
    /// Makes each call of a script, and compares what it gives.
    fn run(
        &mut self,
        rt: &impl Abort,
        system: &HostRuntime,
        script: &str,
    ) -> Result<(), AllocError> {
        for line in script.lines() {
            let (text, want) = parts_of(line);
            let told = self.told_of(system, text)?;
            assert_eq!(rt; told.as_str(), want, "{line}");
        }
        Ok(())
    }

    /// What a call gives.
    fn told_of(&mut self, system: &HostRuntime, text: &str) -> Result<String, AllocError> {
        let mut told = String::new(system.alloc());
        let call = call_of(text);
        let rest = rest_of(text, call.name).as_bytes();
        self.take(system, call, rest, &mut told)?;
        Ok(told)
    }

    /// Makes a call, of the system or of another kind.
    fn take(
        &mut self,
        system: &HostRuntime,
        call: Call<'_>,
        rest: &[u8],
        told: &mut String,
    ) -> Result<(), AllocError> {
        match call.name {
            "system" => put_system(system, call, told),
            "stdout" => put_value(told, &RealSink::new(system.stdout()).put(rest)),
            "endless" => put_endless(told, slot(call.words[0])),
            "breaking" => put_breaking(told, call.words[0]),
            "fault" => put_fault(told, call.words[0]),
            "hold" | "fail_read" | "read" => take_file(&mut self.files, call, told),
            "fail_put" | "put" | "octets" => take_sink(&mut self.sink, call, rest, told),
            _ => take_stream(&mut self.stream, call, rest, told),
        }
    }
}

/// Reads a file of the system.
fn put_system(system: &HostRuntime, call: Call<'_>, told: &mut String) -> Result<(), AllocError> {
    let mut files = RealFiles::new(system);
    let answer = files.read_file(*told.allocator(), call.words[0], slot(call.words[1]));
    put_read(told, answer)
}

/// Makes a call on files in memory.
fn take_file(files: &mut MemFiles, call: Call<'_>, told: &mut String) -> Result<(), AllocError> {
    let [first, second, ..] = call.words;
    match call.name {
        "hold" => files.hold(first, second.as_bytes()),
        "fail_read" => files.fail_at(u64::from(slot(first))),
        _ => {
            let answer = files.read_file(*told.allocator(), first, slot(second));
            put_read(told, answer)
        }
    }
}

/// Makes a call on a sink in memory.
fn take_sink(
    sink: &mut MemSink,
    call: Call<'_>,
    rest: &[u8],
    told: &mut String,
) -> Result<(), AllocError> {
    match call.name {
        "fail_put" => sink.fail_at(u64::from(slot(call.words[0]))),
        "put" => put_value(told, &sink.put(rest)),
        _ => put_text(told, sink.octets()),
    }
}

/// Makes a call on a stream, or begins a new one.
fn take_stream(
    stream: &mut Narrow,
    call: Call<'_>,
    rest: &[u8],
    told: &mut String,
) -> Result<(), AllocError> {
    match call.name {
        "stream" => {
            *stream = stream_with(*told.allocator(), slot(call.words[0]), call.words[1]);
            Ok(())
        }
        "send" => put_value(told, &RealSink::new(&mut *stream).put(rest)),
        "taken" => put_text(told, stream.taken.as_slice()),
        "flushed" => put_number(told, stream.flushed as u64),
        _ => told.push_str(" which call?"),
    }
}
