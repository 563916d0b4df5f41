//! Data length update (Core 5.2, volume 6 part B, section 5.1.9).
ghost use Rattle.std.specs.Prelude.{◌≡◌};
ghost use Rattle.procedures.specs.Length.{length_reply, with_lengths, length_asked, length_taken};

use crate::outcome::{Outcome, answered, moved, unchanged};
use crate::table::ProcTable;
use ble_base::Kind;
use procedure_stages::awaited::awaits_lengths;
use procedure_stages::{Draft, Effect, Lengths, Step};

/// LL_LENGTH_RSP of this end.
fn length_reply(lengths: &Lengths) -> Draft
    ensures { result ≡ length_reply lengths.now }
{
    Draft::LengthRsp {
        rx: lengths.own_rx,
        tx: lengths.own_tx,
    }
}

/// The peer's limits are known.
fn with_lengths(lengths: Lengths, outcome: Outcome) -> Outcome
    ensures { result ≡ with_lengths lengths outcome }
{
    let effect = Effect::Lengths {
        rx: lengths.rx(),
        tx: lengths.tx(),
    };
    Outcome {
        lengths,
        step: Step {
            effect,
            ..outcome.step
        },
        ..outcome
    }
}

/// LL_LENGTH_REQ is taken, with the most octets that the peer receives and transmits.
pub(crate) fn length_asked(table: &ProcTable, rx: u16, tx: u16) -> Outcome
    ensures { result ≡ length_asked table.now rx tx }
{
    let lengths = table.lengths;
    with_lengths(
        lengths.with_peer(rx, tx),
        answered(table, length_reply(&lengths)),
    )
}

/// LL_LENGTH_RSP is taken, with the most octets that the peer receives and transmits.
pub(crate) fn length_taken(table: &ProcTable, rx: u16, tx: u16) -> Outcome
    ensures { result ≡ length_taken table.now rx tx }
{
    let progress = table.progress;
    if awaits_lengths(progress.own_exchange()) {
        with_lengths(
            table.lengths.with_peer(rx, tx),
            moved(table, progress.without_own()),
        )
        .with_done(Kind::Length)
    } else {
        unchanged(table)
    }
}
