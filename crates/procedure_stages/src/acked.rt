//! The stages of procedures after a PDU was acknowledged.
ghost use Rattle.std.specs.Prelude.{◌≡◌};
ghost use Rattle.exclusive_stages.specs.Acked.{own_acked_at_central, own_acked_at_peripheral};
ghost use Rattle.procedure_stages.specs.Exclusive.{on_central_stage, on_peripheral_stage};
ghost use Rattle.procedure_stages.specs.Acked.{central_acked, peripheral_acked};
ghost use Rattle.procedure_stages.specs.Acked.{progress_acked, done_by_ack, done_at_central_by_ack};

use crate::exclusive::pdu_of_outgoing;
use crate::kinds::kind_of;
use crate::stages::{Central, OwnCentral, OwnPeripheral, Peripheral, Progress};
use ble_base::Kind;
use exclusive_stages::Pdu;
use procedure_values::Outgoing;

impl OwnCentral {
    /// The same after this PDU was acknowledged.
    fn acked(self, pdu: Pdu) -> Self
        ensures { result ≡ on_central_stage (own_acked_at_central pdu) self }
    {
        match self {
            OwnCentral::Exclusive(stage) => OwnCentral::Exclusive(stage.acked(pdu)),
            _ => self,
        }
    }
}

impl OwnPeripheral {
    /// The same after this PDU was acknowledged.
    fn acked(self, pdu: Pdu) -> Self
        ensures { result ≡ on_peripheral_stage (own_acked_at_peripheral pdu) self }
    {
        match self {
            OwnPeripheral::Exclusive(stage) => OwnPeripheral::Exclusive(stage.acked(pdu)),
            OwnPeripheral::Exchange(_) => self,
        }
    }
}

/// A central after a PDU was acknowledged, which may be of procedures that exclude each other.
fn central_acked(pdu: Option<Pdu>, c: Central) -> Central
    ensures { result ≡ central_acked pdu c }
{
    match pdu {
        Some(pdu) => Central {
            own: c.own.acked(pdu),
            peer: c.peer.acked(pdu),
            ..c
        },
        None => c,
    }
}

/// The same of a peripheral.
fn peripheral_acked(pdu: Option<Pdu>, p: Peripheral) -> Peripheral
    ensures { result ≡ peripheral_acked pdu p }
{
    match pdu {
        Some(pdu) => Peripheral {
            own: p.own.acked(pdu),
            ..p
        },
        None => p,
    }
}

/// The procedure of a central that the acknowledgement of a PDU completes.
fn done_at_central(pdu: Option<Pdu>, c: Central) -> Option<Kind>
    ensures { result ≡ done_at_central_by_ack pdu c }
{
    match pdu {
        Some(pdu) => kind_of(c.own.stage().done_by_ack(pdu)),
        None => None,
    }
}

impl Progress {
    /// The procedures after a PDU was acknowledged.
    pub fn acked(self, out: &Outgoing) -> Self
        ensures { result ≡ progress_acked out.now self }
    {
        match self {
            Progress::Central(c) => Progress::Central(central_acked(pdu_of_outgoing(out), c)),
            Progress::Peripheral(p) => {
                Progress::Peripheral(peripheral_acked(pdu_of_outgoing(out), p))
            }
        }
    }

    /// The procedure of this end that the acknowledgement of a PDU completes.
    pub fn done_by_ack(self, out: &Outgoing) -> Option<Kind>
        ensures { result ≡ done_by_ack out.now self }
    {
        match self {
            Progress::Central(c) => done_at_central(pdu_of_outgoing(out), c),
            Progress::Peripheral(_) => None,
        }
    }
}
