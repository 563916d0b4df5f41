//! What the second, plain writing of the rules of one end does with a control PDU of the peer.
use crate::plain::{OwnStage, PeerStage, Plain, Source};
use ble_base::{ChannelMap, ErrCode, Kind};
use data_pdu::{Ctrl, CtrlRead};
use instants::Indication;
use procedures::{Effect, Step};

/// A step that does nothing.
const NOTHING: Step = Step {
    effect: Effect::Nothing,
    ends: None,
    refused: None,
    done: None,
};

fn is_exclusive(kind: Option<Kind>) -> bool {
    matches!(
        kind,
        Some(Kind::Update | Kind::Request | Kind::Map | Kind::Phy)
    )
}

fn ends(code: u8) -> Step {
    Step {
        ends: Some(ErrCode(code)),
        ..NOTHING
    }
}

fn gives(effect: Effect) -> Step {
    Step { effect, ..NOTHING }
}

/// The opcode of a PDU of an own procedure.
fn opcode_of(ctrl: &Ctrl) -> u8 {
    match ctrl {
        Ctrl::ConnectionUpdateInd { .. } => 0x00,
        Ctrl::ChannelMapInd { .. } => 0x01,
        Ctrl::EncReq { .. } => 0x03,
        Ctrl::EncRsp { .. } => 0x04,
        Ctrl::StartEncReq => 0x05,
        Ctrl::FeatureReq { .. } => 0x08,
        Ctrl::PauseEncReq => 0x0A,
        Ctrl::PeripheralFeatureReq { .. } => 0x0E,
        Ctrl::ConnectionParamReq { .. } => 0x0F,
        Ctrl::ConnectionParamRsp { .. } => 0x10,
        _ => 0x18,
    }
}

/// The first opcode of a kind at an end.
fn first_opcode(central: bool, kind: Kind) -> u8 {
    match kind {
        Kind::Update => 0x00,
        Kind::Request => 0x0F,
        Kind::Map => 0x01,
        Kind::Phy => 0x16,
        Kind::Features if central => 0x08,
        Kind::Features => 0x0E,
        Kind::Version => 0x0C,
        Kind::Length => 0x14,
        Kind::Encrypt => 0x03,
    }
}

impl Plain {
    fn owed(&mut self, ctrl: Ctrl) -> Step {
        self.push(Source::Own, ctrl);
        NOTHING
    }

    /// Whether an answer is owed for this PDU, or the host asked.
    fn wants_reply(&self, read: &CtrlRead) -> bool {
        let ctrl = match read {
            CtrlRead::Bare => return false,
            CtrlRead::Unknown(_) => return true,
            CtrlRead::Known(ctrl) => ctrl,
        };
        let granted = self.own == Some(Kind::Request) && self.stage == OwnStage::Granted;
        let phy_answered = self.own == Some(Kind::Phy) && self.stage != OwnStage::First;
        match ctrl {
            Ctrl::ConnectionUpdateInd { .. }
            | Ctrl::ChannelMapInd { .. }
            | Ctrl::EncReq { .. }
            | Ctrl::PauseEncReq
            | Ctrl::PhyUpdateInd { .. } => self.central,
            Ctrl::EncRsp { .. } | Ctrl::StartEncReq => !self.central,
            Ctrl::FeatureReq { .. }
            | Ctrl::PeripheralFeatureReq { .. }
            | Ctrl::LengthReq { .. }
            | Ctrl::ConnectionParamRsp { .. } => true,
            Ctrl::VersionInd { .. } => !self.version,
            Ctrl::ConnectionParamReq { .. } => !self.central || !phy_answered,
            Ctrl::PhyReq { .. } if self.central => !phy_answered,
            Ctrl::PhyReq { .. } => !granted,
            Ctrl::PhyRsp { .. } => self.central && self.has_asked_phy(),
            _ => false,
        }
    }

    pub(crate) fn took(&mut self, read: &CtrlRead, slot: u64, quiet: bool) -> Step {
        if !self.closed && self.queue.len() >= 16 && self.wants_reply(read) {
            return ends(0x07);
        }
        match read {
            CtrlRead::Bare => NOTHING,
            CtrlRead::Unknown(opcode) => self.owed(Ctrl::UnknownRsp { opcode: *opcode }),
            CtrlRead::Known(ctrl) if self.central => self.central_took(ctrl, slot, quiet),
            CtrlRead::Known(ctrl) => self.peripheral_took(ctrl, slot, quiet),
        }
    }

    /// Whether the LL_PHY_REQ of this end was sent and not answered.
    fn has_asked_phy(&self) -> bool {
        self.runs(Kind::Phy) && self.stage == OwnStage::First
    }

    fn refused(&mut self, is_one: bool, code: u8) -> Step {
        let Some(kind) = self.own else {
            return NOTHING;
        };
        if !is_one || !self.sent {
            return NOTHING;
        }
        self.idle();
        Step {
            refused: Some((kind, ErrCode(code))),
            ..NOTHING
        }
    }

    /// Whether the own procedure began with this opcode.
    fn began_with(&self, opcode: u8) -> bool {
        match self.own {
            Some(kind) => first_opcode(self.central, kind) == opcode,
            None => false,
        }
    }

    fn feature_rsp(&mut self, features: u64) -> Step {
        self.push(Source::Own, Ctrl::FeatureRsp { features: 0x402F });
        gives(Effect::PeerFeatures(features))
    }

    fn limits(&mut self, rx: u16, tx: u16) -> Step {
        self.peer_rx = rx;
        self.peer_tx = tx;
        let (rx, tx) = self.lengths();
        gives(Effect::Lengths { rx, tx })
    }

    pub(crate) fn lengths(&self) -> (u16, u16) {
        let rx = if self.own_rx < self.peer_tx {
            self.own_rx
        } else {
            self.peer_tx
        };
        let tx = if self.own_tx < self.peer_rx {
            self.own_tx
        } else {
            self.peer_rx
        };
        (rx, tx)
    }

    fn version_came(&mut self, effect: Effect) -> Step {
        let mut done = None;
        if self.own == Some(Kind::Version) {
            done = self.finishes(Kind::Version);
        }
        if let Some(place) = self.place_of(Kind::Version) {
            self.wanted.pop_at(place);
            done = Some(Kind::Version);
        }
        if !self.version && !self.closed {
            self.version = true;
            self.push(
                Source::Own,
                Ctrl::VersionInd {
                    version: 0x0B,
                    company: 0xFFFF,
                    sub: 1,
                },
            );
        }
        Step {
            effect,
            done,
            ..NOTHING
        }
    }

    pub(crate) fn time(octets: u16) -> u16 {
        if octets > 251 { 0 } else { octets * 8 + 112 }
    }

    fn length_rsp(&mut self) {
        let ctrl = Ctrl::LengthRsp {
            max_rx_octets: self.own_rx,
            max_rx_time: Self::time(self.own_rx),
            max_tx_octets: self.own_tx,
            max_tx_time: Self::time(self.own_tx),
        };
        self.push(Source::Own, ctrl);
    }

    fn either_took(&mut self, ctrl: &Ctrl) -> Step {
        match *ctrl {
            Ctrl::TerminateInd { code } => {
                self.closed = true;
                gives(Effect::PeerEnds(ErrCode(code)))
            }
            Ctrl::UnknownRsp { opcode } => {
                let is_one = self.began_with(opcode);
                self.refused(is_one, 0x1A)
            }
            Ctrl::RejectInd { code } => self.refused(true, code),
            Ctrl::RejectExtInd { opcode, code } => {
                let later = self.stage == OwnStage::Indicated && opcode == 0x18;
                let is_one = self.began_with(opcode) || later;
                self.refused(is_one, code)
            }
            Ctrl::FeatureRsp { features } if self.runs(Kind::Features) => Step {
                done: self.finishes(Kind::Features),
                ..gives(Effect::PeerFeatures(features))
            },
            Ctrl::VersionInd {
                version,
                company,
                sub,
            } => self.version_came(Effect::PeerVersion {
                version,
                company,
                sub,
            }),
            Ctrl::LengthReq {
                max_rx_octets,
                max_tx_octets,
                ..
            } => {
                self.length_rsp();
                self.limits(max_rx_octets, max_tx_octets)
            }
            Ctrl::LengthRsp {
                max_rx_octets,
                max_tx_octets,
                ..
            } if self.runs(Kind::Length) => Step {
                done: self.finishes(Kind::Length),
                ..self.limits(max_rx_octets, max_tx_octets)
            },
            Ctrl::ConnectionParamRsp { .. } => self.owed(Ctrl::UnknownRsp { opcode: 0x10 }),
            _ => NOTHING,
        }
    }

    /// A first PDU of the peripheral meets the own procedure of the central.
    fn collides(&mut self, kind: Kind) -> Option<Step> {
        if !is_exclusive(self.own) {
            return None;
        }
        let code = if self.own == Some(kind) { 0x23 } else { 0x2A };
        if self.stage != OwnStage::First {
            return Some(ends(code));
        }
        self.reject(first_opcode(false, kind), code);
        Some(NOTHING)
    }

    pub(crate) fn reject(&mut self, opcode: u8, code: u8) {
        self.push(Source::Rejection, Ctrl::RejectExtInd { opcode, code });
    }

    fn asked(&mut self, min: u16, max: u16, latency: u16, timeout: u16) -> Step {
        if let Some(step) = self.collides(Kind::Request) {
            return step;
        }
        let lasts = u64::from(timeout) * 4 > (1 + u64::from(latency)) * u64::from(max);
        if min < 6
            || max > 3200
            || min > max
            || latency > 499
            || timeout < 10
            || timeout > 3200
            || !lasts
        {
            self.peer = None;
            self.reject(0x0F, 0x1E);
            return NOTHING;
        }
        self.peer = Some(Kind::Request);
        self.peer_stage = PeerStage::Asked;
        gives(Effect::AskHost {
            min,
            max,
            latency,
            timeout,
        })
    }

    fn phy_update_ind(&mut self) {
        self.push(
            Source::Own,
            Ctrl::PhyUpdateInd {
                to_peripheral: 0,
                to_central: 0,
                instant: 0,
            },
        );
    }

    fn central_took(&mut self, ctrl: &Ctrl, slot: u64, quiet: bool) -> Step {
        match *ctrl {
            Ctrl::ConnectionUpdateInd { .. }
            | Ctrl::ChannelMapInd { .. }
            | Ctrl::EncReq { .. }
            | Ctrl::FeatureReq { .. }
            | Ctrl::PauseEncReq
            | Ctrl::PhyUpdateInd { .. } => self.owed(Ctrl::UnknownRsp {
                opcode: opcode_of(ctrl),
            }),
            Ctrl::EncRsp { .. } | Ctrl::StartEncReq | Ctrl::PauseEncRsp | Ctrl::StartEncRsp
                if quiet => { NOTHING }
            Ctrl::StartEncRsp if self.own == Some(Kind::Encrypt) => Step {
                done: self.finishes(Kind::Encrypt),
                ..gives(Effect::Cipher(*ctrl))
            },
            Ctrl::EncRsp { .. } | Ctrl::StartEncReq | Ctrl::PauseEncRsp | Ctrl::StartEncRsp => {
                if self.own == Some(Kind::Encrypt) {
                    self.since = Some(slot);
                }
                gives(Effect::Cipher(*ctrl))
            }
            Ctrl::PeripheralFeatureReq { features } => self.feature_rsp(features),
            Ctrl::ConnectionParamReq {
                interval_min,
                interval_max,
                latency,
                timeout,
                ..
            } => self.asked(interval_min, interval_max, latency, timeout),
            Ctrl::PhyReq { .. } => {
                if let Some(step) = self.collides(Kind::Phy) {
                    return step;
                }
                self.peer = Some(Kind::Phy);
                self.peer_stage = PeerStage::Unsent;
                self.phy_update_ind();
                NOTHING
            }
            Ctrl::PhyRsp { .. } if self.has_asked_phy() => {
                self.stage = OwnStage::Answered;
                self.since = Some(slot);
                self.phy_update_ind();
                NOTHING
            }
            _ => self.either_took(ctrl),
        }
    }

    /// The indication of an update or a map is taken.
    fn indicated(&mut self, kind: Kind, indication: Indication, slot: u64) -> Step {
        let requests = self.own == Some(Kind::Request);
        if kind == Kind::Map && requests && self.stage == OwnStage::Granted {
            return ends(0x2A);
        }
        if let Some(other) = self.ahead {
            return ends(if other == kind { 0x23 } else { 0x2A });
        }
        self.ahead = Some(kind);
        if kind == Kind::Update && requests && self.stage != OwnStage::First {
            self.stage = OwnStage::Granted;
            self.since = Some(slot);
        } else {
            self.peer = Some(kind);
        }
        gives(Effect::Indicated(indication))
    }

    fn peripheral_took(&mut self, ctrl: &Ctrl, slot: u64, quiet: bool) -> Step {
        match *ctrl {
            Ctrl::EncRsp { .. }
            | Ctrl::StartEncReq
            | Ctrl::PeripheralFeatureReq { .. }
            | Ctrl::ConnectionParamReq { .. } => self.owed(Ctrl::UnknownRsp {
                opcode: opcode_of(ctrl),
            }),
            Ctrl::ConnectionUpdateInd {
                win_offset,
                interval,
                latency,
                timeout,
                instant,
                ..
            } => self.indicated(
                Kind::Update,
                Indication::Update {
                    win_offset,
                    interval,
                    latency,
                    timeout,
                    instant,
                },
                slot,
            ),
            Ctrl::ChannelMapInd { map, instant } => match ChannelMap::new(map) {
                Some(map) => self.indicated(Kind::Map, Indication::Map { map, instant }, slot),
                None => NOTHING,
            },
            Ctrl::EncReq { .. } | Ctrl::PauseEncReq => {
                self.encrypting = true;
                gives(Effect::Cipher(*ctrl))
            }
            Ctrl::PauseEncRsp | Ctrl::StartEncRsp if quiet => NOTHING,
            Ctrl::PauseEncRsp => gives(Effect::Cipher(*ctrl)),
            Ctrl::StartEncRsp => {
                self.encrypting = false;
                gives(Effect::Cipher(*ctrl))
            }
            Ctrl::FeatureReq { features } => self.feature_rsp(features),
            Ctrl::PhyReq { .. } => {
                if self.own == Some(Kind::Request) && self.stage == OwnStage::Granted {
                    return ends(0x2A);
                }
                self.peer = Some(Kind::Phy);
                self.peer_stage = PeerStage::Unsent;
                self.owed(Ctrl::PhyRsp { tx: 1, rx: 1 })
            }
            Ctrl::PhyUpdateInd { .. } if self.peer == Some(Kind::Phy) => {
                self.peer = None;
                NOTHING
            }
            Ctrl::PhyUpdateInd { .. } if self.runs(Kind::Phy) => Step {
                done: self.finishes(Kind::Phy),
                ..NOTHING
            },
            _ => self.either_took(ctrl),
        }
    }
}
