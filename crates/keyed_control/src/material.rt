//! What the keys of a session are made of.

/// What the keys of a session are made of: the long term key that the host of this end gave last,
/// and what LL_ENC_REQ and LL_ENC_RSP bring (Core 5.2, volume 6 part B, section 5.1.3.1).
#[derive(Clone, Copy)]
pub struct KeyMaterial {
    /// The long term key, most significant octet first.
    pub ltk: [u8; 16],
    /// The central's half of the session key diversifier.
    pub skd_m: u64,
    /// The peripheral's half of the session key diversifier.
    pub skd_s: u64,
    /// The central's half of the initialization vector.
    pub iv_m: u32,
    /// The peripheral's half of the initialization vector.
    pub iv_s: u32,
}

/// What a peripheral draws for its LL_ENC_RSP (Core 5.2, volume 6 part B, section 5.1.3.1).
#[derive(Clone, Copy)]
pub struct Response {
    /// Its half of the session key diversifier.
    pub skd_s: u64,
    /// Its half of the initialization vector.
    pub iv_s: u32,
}
