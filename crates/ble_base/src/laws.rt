//! Laws of the shared types that no value carries.
ghost use Rattle.std.specs.Prelude.{◌≡◌};
ghost use Rattle.ble_base.specs.ErrorCodes.{success, unknown_hci_command, unknown_connection_identifier, pin_or_key_missing, memory_capacity_exceeded, connection_timeout, connection_limit_exceeded, connection_already_exists, command_disallowed, limited_resources, unsupported_feature_or_value, invalid_hci_parameters, remote_user_terminated, terminated_by_local_host, unsupported_remote_feature, invalid_ll_parameters, ll_response_timeout, ll_procedure_collision, instant_passed, different_transaction_collision, unacceptable_parameters, mic_failure, connection_not_established};

use crate::ErrCode;

impl ErrCode {
    /// Each code has the number that the standard lists under its name (Core 5.2, volume 1 part F,
    /// section 1.3).
    pub fn codes_are_listed()
        ensures code_00 { Self.SUCCESS.0 ≡ success }
        ensures code_01 { Self.UNKNOWN_HCI_COMMAND.0 ≡ unknown_hci_command }
        ensures code_02 { Self.UNKNOWN_CONNECTION_IDENTIFIER.0 ≡ unknown_connection_identifier }
        ensures code_06 { Self.PIN_OR_KEY_MISSING.0 ≡ pin_or_key_missing }
        ensures code_07 { Self.MEMORY_CAPACITY_EXCEEDED.0 ≡ memory_capacity_exceeded }
        ensures code_08 { Self.CONNECTION_TIMEOUT.0 ≡ connection_timeout }
        ensures code_09 { Self.CONNECTION_LIMIT_EXCEEDED.0 ≡ connection_limit_exceeded }
        ensures code_0b { Self.CONNECTION_ALREADY_EXISTS.0 ≡ connection_already_exists }
        ensures code_0c { Self.COMMAND_DISALLOWED.0 ≡ command_disallowed }
        ensures code_0d { Self.LIMITED_RESOURCES.0 ≡ limited_resources }
        ensures code_11 { Self.UNSUPPORTED_FEATURE_OR_VALUE.0 ≡ unsupported_feature_or_value }
        ensures code_12 { Self.INVALID_HCI_PARAMETERS.0 ≡ invalid_hci_parameters }
        ensures code_13 { Self.REMOTE_USER_TERMINATED.0 ≡ remote_user_terminated }
        ensures code_16 { Self.TERMINATED_BY_LOCAL_HOST.0 ≡ terminated_by_local_host }
        ensures code_1a { Self.UNSUPPORTED_REMOTE_FEATURE.0 ≡ unsupported_remote_feature }
        ensures code_1e { Self.INVALID_LL_PARAMETERS.0 ≡ invalid_ll_parameters }
        ensures code_22 { Self.LL_RESPONSE_TIMEOUT.0 ≡ ll_response_timeout }
        ensures code_23 { Self.LL_PROCEDURE_COLLISION.0 ≡ ll_procedure_collision }
        ensures code_28 { Self.INSTANT_PASSED.0 ≡ instant_passed }
        ensures code_2a { Self.DIFFERENT_TRANSACTION_COLLISION.0 ≡ different_transaction_collision }
        ensures code_3b { Self.UNACCEPTABLE_PARAMETERS.0 ≡ unacceptable_parameters }
        ensures code_3d { Self.MIC_FAILURE.0 ≡ mic_failure }
        ensures code_3e { Self.CONNECTION_NOT_ESTABLISHED.0 ≡ connection_not_established }
    {}
}
