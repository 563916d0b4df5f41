//! The program `ble_capture`: writes the capture of a journal.
#![tactic(auto)]

use journal_tool::start;
use renderings::CaptureFile;
use std::process::ExitCode;

fn main(rt: HostRuntime) -> ExitCode {
    start(rt, "ble_capture", &CaptureFile)
}
