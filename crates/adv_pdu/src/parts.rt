//! Parts of a PDU that several types have.
ghost use Rattle.std.specs.Prelude.{◌≡◌};
ghost use Rattle.adv_pdu.specs.Pdu.{ch_sel_of, sender_of};

use crate::pdu::AdvPdu;
use ble_base::Address;

impl AdvPdu {
    /// The address of its sender, which is first in the payload.
    pub fn sender(&self) -> Address
        ensures { result ≡ sender_of self.now }
    {
        match self {
            AdvPdu::Ind { from, .. }
            | AdvPdu::Direct { from, .. }
            | AdvPdu::Nonconn { from, .. }
            | AdvPdu::ScanReq { from, .. }
            | AdvPdu::ScanRsp { from, .. }
            | AdvPdu::Connect { from, .. }
            | AdvPdu::ScanInd { from, .. } => *from,
        }
    }

    /// ChSel: its sender supports channel selection algorithm #2. False where the type has none
    /// (Core 5.2, volume 6 part B, section 2.3).
    pub fn ch_sel(&self) -> bool
        ensures { result ≡ ch_sel_of self.now }
    {
        match self {
            AdvPdu::Ind { ch_sel, .. }
            | AdvPdu::Direct { ch_sel, .. }
            | AdvPdu::Connect { ch_sel, .. } => *ch_sel,
            _ => false,
        }
    }
}
