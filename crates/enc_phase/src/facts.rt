//! The phase of an end without its session: what it lets the end take, and what is sealed.
ghost use Rattle.std.specs.Prelude.{◌≡◌};
ghost use Rattle.enc_phase.specs.Phases.{is_asked, is_quiet, may_follow, opens, phase_after};
ghost use Rattle.enc_phase.specs.Phases.{phase_starting, seals};
ghost use Rattle.enc_phase.specs.Taking.{allows, is_unknown, phase_taking};

use crate::PduClass;
use ble_base::Role;

/// The phase that an end is in, and what it keeps there.
#[derive(Clone, Copy, Debug, PartialEq, Eq)]
pub enum PhaseFacts {
    /// Without encryption.
    Clear,
    /// Encryption was asked for.
    Asked {
        /// Encryption was paused before.
        after_pause: bool,
        /// LL_ENC_RSP was taken.
        enc_rsp: bool,
        /// The first PDU of a procedure of the peripheral was taken, and is kept until encryption
        /// starts or is refused.
        kept: bool,
    },
    /// Encryption starts.
    HalfKeyed,
    /// With encryption.
    Secure,
    /// Encryption is to pause.
    Pausing {
        /// As in Asked.
        kept: bool,
    },
    /// Encryption was paused.
    HalfClear {
        /// As in Asked.
        kept: bool,
    },
}

/// A change of phase, by the PDU at which an end makes it. The beginning of a session is not one of
/// them.
#[derive(Clone, Copy, Debug, PartialEq, Eq)]
pub enum Transition {
    /// The central queues LL_ENC_REQ, the peripheral takes it.
    Ask,
    /// The peripheral queues its rejection of LL_ENC_REQ, the central takes it.
    Refuse,
    /// LL_START_ENC_RSP is taken.
    Confirm,
    /// The central queues LL_PAUSE_ENC_REQ, the peripheral takes it.
    Pause,
    /// LL_PAUSE_ENC_RSP is taken: the session ends.
    Unlock,
}

impl PhaseFacts {
    /// Whether this is Clear or Secure: the phases in which an end sends data and begins
    /// procedures.
    pub fn is_quiet(self) -> bool
        ensures { result ≡ is_quiet self }
    {
        matches!(self, PhaseFacts::Clear | PhaseFacts::Secure)
    }

    /// Whether an end of this role sends nonempty PDUs sealed.
    pub fn seals(self, role: Role) -> bool
        ensures { result ≡ seals role self }
    {
        match self {
            PhaseFacts::HalfKeyed => matches!(role, Role::Central),
            PhaseFacts::Secure | PhaseFacts::Pausing { .. } => true,
            _ => false,
        }
    }

    /// Whether an end of this role opens nonempty PDUs as sealed.
    pub fn opens(self, role: Role) -> bool
        ensures { result ≡ opens role self }
    {
        match self {
            PhaseFacts::HalfKeyed | PhaseFacts::Secure => true,
            PhaseFacts::Pausing { .. } => matches!(role, Role::Central),
            _ => false,
        }
    }

    /// Whether an end of this role may take a PDU of this class. Any other PDU ends the link (our
    /// choice).
    pub fn allows(self, role: Role, class: PduClass) -> bool
        ensures { result ≡ allows self role class }
    {
        match (self, role, class) {
            (PhaseFacts::Clear | PhaseFacts::Secure, _, _)
            | (_, _, PduClass::Empty | PduClass::Terminate)
            | (PhaseFacts::HalfKeyed, _, PduClass::StartEncRsp)
            | (PhaseFacts::Pausing { .. }, _, PduClass::PauseEncRsp)
            | (PhaseFacts::Pausing { .. }, Role::Central, PduClass::Data)
            | (PhaseFacts::HalfClear { .. }, Role::Peripheral, PduClass::EncReq) => true,
            (PhaseFacts::Asked { enc_rsp, .. }, Role::Central, PduClass::Data) => !enc_rsp,
            (PhaseFacts::Asked { enc_rsp, .. }, Role::Central, PduClass::EncRsp) => !enc_rsp,
            (PhaseFacts::Asked { enc_rsp, .. }, Role::Central, PduClass::StartEncReq) => enc_rsp,
            (PhaseFacts::Asked { after_pause, .. }, Role::Central, PduClass::Refusal) => {
                !after_pause
            }
            (PhaseFacts::Asked { kept, .. }, Role::Central, PduClass::Request) => !kept,
            (PhaseFacts::Pausing { kept }, Role::Central, PduClass::Request) => !kept,
            _ => false,
        }
    }

    /// Whether an encryption PDU of this class is answered with LL_UNKNOWN_RSP, since it has no
    /// meaning for an end of this role in this phase (our choice).
    pub fn is_unknown(self, role: Role, class: PduClass) -> bool
        ensures { result ≡ is_unknown self role class }
    {
        let is_central = matches!(role, Role::Central);
        match (self, class) {
            (PhaseFacts::Clear, PduClass::EncReq) => is_central,
            (PhaseFacts::Secure, PduClass::PauseEncReq) => is_central,
            (PhaseFacts::Secure, PduClass::EncReq) => true,
            (PhaseFacts::Clear, PduClass::PauseEncReq) => true,
            (PhaseFacts::Clear | PhaseFacts::Secure, PduClass::EncRsp | PduClass::StartEncReq) => {
                !is_central
            }
            _ => false,
        }
    }

    /// The phase after a PDU of this class is taken, before that makes a transition.
    pub fn taking(self, class: PduClass) -> PhaseFacts
        ensures { result ≡ phase_taking class self }
    {
        match (self, class) {
            (
                PhaseFacts::Asked {
                    after_pause,
                    kept,
                    ..
                },
                PduClass::EncRsp,
            ) => PhaseFacts::Asked {
                after_pause,
                enc_rsp: true,
                kept,
            },
            (
                PhaseFacts::Asked {
                    after_pause,
                    enc_rsp,
                    ..
                },
                PduClass::Request,
            ) => PhaseFacts::Asked {
                after_pause,
                enc_rsp,
                kept: true,
            },
            (PhaseFacts::Pausing { .. }, PduClass::Request) => PhaseFacts::Pausing { kept: true },
            _ => self,
        }
    }

    /// Whether a session may begin.
    pub fn is_asked(self) -> bool
        ensures { result ≡ is_asked self }
    {
        matches!(self, PhaseFacts::Asked { .. })
    }

    /// The phase as a session begins, and this one where none may: the peripheral queues
    /// LL_START_ENC_REQ, the central takes it.
    pub fn start(self) -> PhaseFacts
        ensures { result ≡ phase_starting self }
    {
        if self.is_asked() {
            PhaseFacts::HalfKeyed
        } else {
            self
        }
    }

    /// Whether this transition can be made. A restart after a pause cannot be refused.
    pub fn may_follow(self, transition: Transition) -> bool
        ensures { result ≡ may_follow transition self }
    {
        match (transition, self) {
            (Transition::Ask, PhaseFacts::Clear | PhaseFacts::HalfClear { .. })
            | (Transition::Confirm, PhaseFacts::HalfKeyed)
            | (Transition::Pause, PhaseFacts::Secure)
            | (Transition::Unlock, PhaseFacts::Pausing { .. }) => true,
            (Transition::Refuse, PhaseFacts::Asked { after_pause, .. }) => !after_pause,
            _ => false,
        }
    }

    /// The phase after a transition, and this one where it cannot be made.
    pub fn after(self, transition: Transition) -> PhaseFacts
        ensures { result ≡ phase_after transition self }
    {
        match (transition, self) {
            (Transition::Ask, PhaseFacts::Clear) => PhaseFacts::Asked {
                after_pause: false,
                enc_rsp: false,
                kept: false,
            },
            (Transition::Ask, PhaseFacts::HalfClear { kept }) => PhaseFacts::Asked {
                after_pause: true,
                enc_rsp: false,
                kept,
            },
            (Transition::Refuse, PhaseFacts::Asked { .. }) => PhaseFacts::Clear,
            (Transition::Confirm, PhaseFacts::HalfKeyed) => PhaseFacts::Secure,
            (Transition::Pause, PhaseFacts::Secure) => PhaseFacts::Pausing { kept: false },
            (Transition::Unlock, PhaseFacts::Pausing { kept }) => PhaseFacts::HalfClear { kept },
            _ => self,
        }
    }
}
