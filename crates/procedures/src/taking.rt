//! What each control PDU of the peer does at an end.
ghost use Rattle.std.specs.Prelude.{◌≡◌, false};
ghost use Rattle.ble_base.specs.ChannelMap.{IsMap};
ghost use Rattle.data_pdu.specs.Ranges.{IsInRange};
ghost use Rattle.data_pdu.specs.Reading.{IfKnown};
ghost use Rattle.procedures.specs.Taking.{taken_by_either, taken_by_central, taken_by_peripheral};
ghost use Rattle.procedures.specs.Taking.{taken_by_role, taken_by, outcome_of};
ghost use Rattle.procedures.specs.Taking.{since_after};
ghost use Rattle.procedures.specs.Taking.{lacks_room, wanted_after, facts_with, settled, took_step};
ghost use Rattle.procedures.specs.Map.{map_taken};

use crate::encryption::{
    cipher_at_central, encryption_begun, pause_rsp_at_peripheral, start_rsp_at_central,
    start_rsp_at_peripheral,
};
use crate::features::{features_asked, features_taken};
use crate::length::{length_asked, length_taken};
use crate::map::map_taken;
use crate::outcome::{Outcome, empty_step, unchanged, unknown};
use crate::phy::{phy_ind_taken, phy_req_at_central, phy_req_at_peripheral, phy_rsp_taken};
use crate::refusals::{reject_ext_taken, reject_taken, unknown_rsp_taken};
use crate::request::request_taken;
use crate::table::ProcTable;
use crate::termination::terminate_taken;
use crate::update::update_taken;
use crate::version::version_taken;
use ble_base::{ChannelMap, ErrCode, Kind, SlotNo};
use data_pdu::{Ctrl, CtrlRead};
use instants::Indication;
use procedure_stages::foreign::foreign_opcode;
use procedure_stages::{Central, Effect, Peripheral, Progress, Step};

/// From this number of control PDUs on that wait, none is answered.
const CROWD: usize = 16;

/// A PDU that means the same at either end is taken.
fn taken_by_either(table: &ProcTable, ctrl: &Ctrl) -> Outcome
    ensures { result ≡ taken_by_either table.now ctrl.now }
{
    match *ctrl {
        Ctrl::TerminateInd { code } => terminate_taken(table, code),
        Ctrl::UnknownRsp { opcode } => unknown_rsp_taken(table, opcode),
        Ctrl::FeatureRsp { features } => features_taken(table, features),
        Ctrl::VersionInd {
            version,
            company,
            sub,
        } => version_taken(table, version, company, sub),
        Ctrl::RejectInd { code } => reject_taken(table, code),
        Ctrl::RejectExtInd { opcode, code } => reject_ext_taken(table, opcode, code),
        Ctrl::LengthReq {
            max_rx_octets,
            max_tx_octets,
            ..
        } => length_asked(table, max_rx_octets, max_tx_octets),
        Ctrl::LengthRsp {
            max_rx_octets,
            max_tx_octets,
            ..
        } => length_taken(table, max_rx_octets, max_tx_octets),
        _ => unchanged(table),
    }
}

/// A PDU is taken at a central.
fn taken_by_central(table: &ProcTable, c: Central, quiet: bool, ctrl: &Ctrl) -> Outcome
    ensures { result ≡ taken_by_central table.now c quiet ctrl.now }
{
    match *ctrl {
        Ctrl::EncRsp { .. } | Ctrl::StartEncReq | Ctrl::PauseEncRsp => {
            cipher_at_central(table, c, quiet, ctrl)
        }
        Ctrl::StartEncRsp => start_rsp_at_central(table, c, quiet, ctrl),
        Ctrl::PeripheralFeatureReq { features } => features_asked(table, features),
        Ctrl::ConnectionParamReq {
            interval_min,
            interval_max,
            latency,
            timeout,
            ..
        } => request_taken(table, c, interval_min, interval_max, latency, timeout),
        Ctrl::PhyReq { .. } => phy_req_at_central(table, c),
        Ctrl::PhyRsp { .. } => phy_rsp_taken(table, c),
        _ => taken_by_either(table, ctrl),
    }
}

/// LL_CHANNEL_MAP_IND is taken at a peripheral.
fn map_read(table: &ProcTable, p: Peripheral, map: u64, instant: u16) -> Outcome
    requires { IsMap map }
    ensures { result ≡ map_taken table.now p (Indication.Map map instant) }
{
    match ChannelMap::new(map) {
        Some(map) => map_taken(table, p, Indication::Map { map, instant }),
        None => unreachable!(),
    }
}

/// A PDU is taken at a peripheral.
fn taken_by_peripheral(table: &ProcTable, p: Peripheral, quiet: bool, ctrl: &Ctrl) -> Outcome
    requires { IsInRange ctrl.now }
    ensures { result ≡ taken_by_peripheral table.now p quiet ctrl.now }
{
    match *ctrl {
        Ctrl::ConnectionUpdateInd {
            win_offset,
            interval,
            latency,
            timeout,
            instant,
            ..
        } => {
            let indication = Indication::Update {
                win_offset,
                interval,
                latency,
                timeout,
                instant,
            };
            update_taken(table, p, indication)
        }
        Ctrl::ChannelMapInd { map, instant } => map_read(table, p, map, instant),
        Ctrl::EncReq { .. } | Ctrl::PauseEncReq => encryption_begun(table, p, ctrl),
        Ctrl::PauseEncRsp => pause_rsp_at_peripheral(table, quiet, ctrl),
        Ctrl::StartEncRsp => start_rsp_at_peripheral(table, p, quiet, ctrl),
        Ctrl::FeatureReq { features } => features_asked(table, features),
        Ctrl::PhyReq { .. } => phy_req_at_peripheral(table, p),
        Ctrl::PhyUpdateInd { .. } => phy_ind_taken(table, p),
        _ => taken_by_either(table, ctrl),
    }
}

/// A PDU that has a meaning at an end is taken there.
fn taken_by_role(table: &ProcTable, quiet: bool, ctrl: &Ctrl) -> Outcome
    requires { IsInRange ctrl.now }
    ensures { result ≡ taken_by_role table.now.progress table.now quiet ctrl.now }
{
    match table.progress {
        Progress::Central(c) => taken_by_central(table, c, quiet, ctrl),
        Progress::Peripheral(p) => taken_by_peripheral(table, p, quiet, ctrl),
    }
}

/// A PDU is taken; one that has no meaning at this end is answered as an unknown one.
#[tactic(auto, using(crate::proofs::Meanings::known))]
fn taken_by(table: &ProcTable, quiet: bool, ctrl: &Ctrl) -> Outcome
    requires { IsInRange ctrl.now }
    ensures { result ≡ taken_by table.now.progress table.now quiet ctrl.now }
{
    match foreign_opcode(table.progress.role(), ctrl) {
        Some(opcode) => unknown(table, opcode),
        None => taken_by_role(table, quiet, ctrl),
    }
}

/// What was read of the octets of a PDU is taken.
fn outcome_of(table: &ProcTable, quiet: bool, read: &CtrlRead) -> Outcome
    requires { IfKnown read.now IsInRange }
    ensures { result ≡ outcome_of table.now quiet read.now }
{
    match read {
        CtrlRead::Known(ctrl) => taken_by(table, quiet, ctrl),
        CtrlRead::Unknown(opcode) => unknown(table, *opcode),
        CtrlRead::Bare => unchanged(table),
    }
}

/// The slot from which the peer's time to answer runs.
pub(crate) fn since_after(restarts: bool, slot: SlotNo, since: Option<SlotNo>) -> Option<SlotNo>
    ensures { result ≡ since_after restarts slot.0 since }
{
    if restarts { Some(slot) } else { since }
}

impl ProcTable {
    /// Whether there is no room for what a PDU asks for.
    fn lacks_room(&self, outcome: &Outcome) -> bool
        ensures { result ≡ lacks_room self.now outcome.now }
    {
        self.closing.is_open()
            && self.waiting() >= CROWD
            && (outcome.reply.is_some() || outcome.step.effect.asks_host())
    }

    /// The host no longer wants an exchange of versions, if the peer's version is known now.
    fn settle_version(&mut self, effect: &Effect)
        ensures { self.new
            ≡ record self.old { wanted = wanted_after effect.now self.old.wanted } }
    {
        if effect.is_version() {
            self.wanted.remove_kind(Kind::Version);
        }
    }

    /// The table after a PDU with this outcome, for which there is room.
    fn follow_outcome(&mut self, slot: SlotNo, outcome: &Outcome)
        requires { lacks_room self.old outcome.now ≡ false }
        ensures { self.new ≡ facts_with self.old slot.0 outcome.now }
    {
        self.queue.push_reply(self.closing, outcome.reply);
        self.settle_version(&outcome.step.effect);
        self.progress = outcome.progress;
        self.version_used = self.version_used
            || (outcome.reply.is_version() && self.closing.is_open());
        self.closing = outcome.step.effect.closing_after(self.closing);
        self.lengths = outcome.lengths;
        self.since = since_after(outcome.restarts, slot, self.since);
    }

    /// The table and the step after a PDU with this outcome.
    fn settle(&mut self, slot: SlotNo, outcome: &Outcome) -> Step
        ensures { (self.new, result) ≡ settled self.old slot.0 outcome.now }
    {
        if self.lacks_room(outcome) {
            return Step {
                ends: Some(ErrCode::MEMORY_CAPACITY_EXCEEDED),
                ..empty_step()
            };
        }
        if outcome.step.ends.is_none() {
            self.follow_outcome(slot, outcome);
        }
        outcome.step
    }

    /// Takes a control PDU of the peer in a slot, `quiet` being phase Clear or Secure.
    ///
    /// A PDU of the encryption procedures that the phase answers with LL_UNKNOWN_RSP is handed in
    /// as `Unknown`, and one that the phase forbids is not handed in. The link ends with Memory
    /// Capacity Exceeded if the PDU is to be answered, or the host asked, while sixteen or more
    /// control PDUs wait. A step that ends the link changes nothing.
    pub fn took(&mut self, ctrl: &CtrlRead, slot: SlotNo, quiet: bool) -> Step
        requires { IfKnown ctrl.now IsInRange }
        ensures { (self.new, result) ≡ took_step self.old ctrl.now slot.0 quiet }
    {
        let outcome = outcome_of(self, quiet, ctrl);
        self.settle(slot, &outcome)
    }
}
