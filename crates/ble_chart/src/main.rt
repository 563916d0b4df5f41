//! The program `ble_chart`: writes the chart of a journal.
#![tactic(auto)]

use journal_tool::start;
use renderings::MessageChart;
use std::process::ExitCode;

fn main(rt: HostRuntime) -> ExitCode {
    start(rt, "ble_chart", &MessageChart)
}
