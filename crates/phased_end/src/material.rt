//! What an end keeps for its keys, and for later: the request of a central, and the PDU that it
//! keeps.
ghost use Rattle.std.specs.Prelude.{◌≡◌, ◌++◌};
ghost use Rattle.std.specs.Int.{to_le_bytes, w32};
ghost use Rattle.data_pdu.specs.Ranges.{IsInRange};
ghost use Rattle.keyed_control.specs.Keyed.{first_material, session_of};
ghost use Rattle.keyed_control.specs.KeyedSteps.{with_asked};
ghost use Rattle.keyed_control.specs.phased_control.Phased.{request_of};
ghost use Rattle.phased_end.specs.Requests.{request_ctrl, request_in};

use ccm_link::session_key;
use data_pdu::Ctrl;
use enc_phase::Session;
use keyed_control::KeyMaterial;
use procedures::Ask;
use std::marker::Model;

/// The fields of LL_ENC_REQ (Core 5.2, volume 6 part B, section 2.4.2.4).
#[derive(Clone, Copy)]
pub(crate) struct EncRequest {
    rand: u64,
    ediv: u16,
    skd_m: u64,
    iv_m: u32,
}

impl EncRequest {
    /// The PDU.
    pub(crate) fn ctrl(self) -> Ctrl
        ensures value { result ≡ request_ctrl self }
        ensures in_range { IsInRange result }
    {
        Ctrl::EncReq {
            rand: self.rand,
            ediv: self.ediv,
            skd_m: self.skd_m,
            iv_m: self.iv_m,
        }
    }
}

/// The request with what a host asked.
pub(crate) fn request_of(asked: &Option<Ask>) -> Option<EncRequest>
    ensures { request_in result ≡ request_of asked.now }
{
    match *asked {
        Some(
            Ask::Encrypt {
                rand,
                ediv,
                skd_m,
                iv_m,
                ..
            },
        ) => Some(EncRequest {
            rand,
            ediv,
            skd_m,
            iv_m,
        }),
        _ => None,
    }
}

/// What the keys are made of as a link begins.
pub(crate) fn first_material() -> KeyMaterial
    ensures { result ≡ first_material }
{
    KeyMaterial {
        ltk: [0; 16],
        skd_m: 0,
        skd_s: 0,
        iv_m: 0,
        iv_s: 0,
    }
}

/// Adds what a host asked to what the keys are made of.
pub(crate) fn add_asked(material: &mut KeyMaterial, asked: &Option<Ask>)
    ensures { material.new ≡ with_asked asked.now material.old }
{
    if let Some(
        Ask::Encrypt {
            ltk,
            skd_m,
            iv_m,
            ..
        },
    ) = *asked
    {
        material.ltk = ltk;
        material.skd_m = skd_m;
        material.iv_m = iv_m;
    }
}

/// The initialization vector: the central's four octets and then the peripheral's, each in the order
/// on the air.
fn vector(iv_m: u32, iv_s: u32) -> [u8; 8]
    ensures { result ≡ to_le_bytes w32 iv_m ++ to_le_bytes w32 iv_s }
{
    let [m0, m1, m2, m3] = iv_m.to_le_bytes();
    let [s0, s1, s2, s3] = iv_s.to_le_bytes();
    [m0, m1, m2, m3, s0, s1, s2, s3]
}

/// The session that begins with this material.
pub(crate) fn session_of(material: KeyMaterial) -> Session
    ensures { result ≡ session_of material }
{
    Session {
        key: session_key(&material.ltk, material.skd_m, material.skd_s),
        iv: vector(material.iv_m, material.iv_s),
    }
}

/// The first PDU of a procedure of the peripheral that a central keeps, with its fields in their
/// ranges.
#[derive(Drop)]
pub(crate) struct KeptPdu {
    ctrl: Ctrl,
}

impl Model for KeptPdu {
    ghost use Rattle.data_pdu.specs.declared.ctrl.Ctrl.{Ctrl};
    ghost use Rattle.data_pdu.specs.Ranges.{IsInRange};

    ghost Value = { Ctrl };

    ghost view = { λ k. k.ctrl };

    ghost invariant = { λ k. IsInRange k.ctrl };
}

impl KeptPdu {
    /// Keeps a PDU.
    pub(crate) fn new(ctrl: Ctrl) -> Self
        requires { IsInRange ctrl }
        ensures { result ≡ ctrl }
    {
        KeptPdu { ctrl }
    }

    /// The PDU.
    pub(crate) fn ctrl(&self) -> Ctrl
        ensures value { result ≡ self.now }
        ensures in_range { IsInRange result }
    {
        self.ctrl
    }
}
