//! A link that ended.
use ble_base::ErrCode;

/// A link that ends, at the start of a turn or at the end of one.
#[derive(Clone, Copy, Debug, PartialEq, Eq, Default)]
pub struct LinkEnded {
    /// The handle that it had.
    pub handle: u16,
    /// Why it ends. At the start of a turn, because a time has passed: 3E, Connection Failed to be
    /// Established; 08, Connection Timeout; 22, LL Response Timeout; or 16, Connection Terminated by
    /// Local Host. At the end of a turn, by a PDU: 16; the code of the peer's LL_TERMINATE_IND; 28,
    /// Instant Passed; 23 or 2A, for two procedures that collide; or 07, Memory Capacity Exceeded
    /// (Core 5.2, volume 1 part F, and volume 6 part B, sections 4.5.2, 5.1.6, 5.2, 5.3 and 5.5.1).
    pub reason: ErrCode,
}
