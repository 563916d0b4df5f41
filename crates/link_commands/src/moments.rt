//! The moment at which a command of a host is accepted.

/// What the step that a command makes on a link has besides its parameters: the slot of the next
/// turn, and the halves of the session key diversifier and of the initialization vector that a
/// central draws where its host's LE Enable Encryption is accepted (Core 5.2, volume 6 part B,
/// section 5.1.3.1).
#[derive(Clone, Copy, Debug, PartialEq, Eq)]
pub struct Moment {
    pub slot: u64,
    pub skd_m: u64,
    pub iv_m: u32,
}
