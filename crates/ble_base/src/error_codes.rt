//! Error codes.

/// An error code (Core 5.2, volume 1 part F).
#[derive(Clone, Copy, Debug, PartialEq, Eq, Default)]
pub struct ErrCode(pub u8);

/// The codes that this controller gives, each by its name in the list of error codes.
impl ErrCode {
    /// Success.
    pub const SUCCESS: Self = ErrCode(0x00);

    /// Unknown HCI Command.
    pub const UNKNOWN_HCI_COMMAND: Self = ErrCode(0x01);

    /// Unknown Connection Identifier.
    pub const UNKNOWN_CONNECTION_IDENTIFIER: Self = ErrCode(0x02);

    /// PIN or Key Missing.
    pub const PIN_OR_KEY_MISSING: Self = ErrCode(0x06);

    /// Memory Capacity Exceeded.
    pub const MEMORY_CAPACITY_EXCEEDED: Self = ErrCode(0x07);

    /// Connection Timeout.
    pub const CONNECTION_TIMEOUT: Self = ErrCode(0x08);

    /// Connection Limit Exceeded.
    pub const CONNECTION_LIMIT_EXCEEDED: Self = ErrCode(0x09);

    /// Connection Already Exists.
    pub const CONNECTION_ALREADY_EXISTS: Self = ErrCode(0x0B);

    /// Command Disallowed.
    pub const COMMAND_DISALLOWED: Self = ErrCode(0x0C);

    /// Connection Rejected due to Limited Resources.
    pub const LIMITED_RESOURCES: Self = ErrCode(0x0D);

    /// Unsupported Feature or Parameter Value.
    pub const UNSUPPORTED_FEATURE_OR_VALUE: Self = ErrCode(0x11);

    /// Invalid HCI Command Parameters.
    pub const INVALID_HCI_PARAMETERS: Self = ErrCode(0x12);

    /// Remote User Terminated Connection.
    pub const REMOTE_USER_TERMINATED: Self = ErrCode(0x13);

    /// Connection Terminated By Local Host.
    pub const TERMINATED_BY_LOCAL_HOST: Self = ErrCode(0x16);

    /// Unsupported Remote Feature.
    pub const UNSUPPORTED_REMOTE_FEATURE: Self = ErrCode(0x1A);

    /// Invalid LMP Parameters / Invalid LL Parameters.
    pub const INVALID_LL_PARAMETERS: Self = ErrCode(0x1E);

    /// LMP Response Timeout / LL Response Timeout.
    pub const LL_RESPONSE_TIMEOUT: Self = ErrCode(0x22);

    /// LMP Error Transaction Collision / LL Procedure Collision.
    pub const LL_PROCEDURE_COLLISION: Self = ErrCode(0x23);

    /// Instant Passed.
    pub const INSTANT_PASSED: Self = ErrCode(0x28);

    /// Different Transaction Collision.
    pub const DIFFERENT_TRANSACTION_COLLISION: Self = ErrCode(0x2A);

    /// Unacceptable Connection Parameters.
    pub const UNACCEPTABLE_PARAMETERS: Self = ErrCode(0x3B);

    /// Connection Terminated due to MIC Failure.
    pub const MIC_FAILURE: Self = ErrCode(0x3D);

    /// Connection Failed to be Established / Synchronization Timeout.
    pub const CONNECTION_NOT_ESTABLISHED: Self = ErrCode(0x3E);
}
