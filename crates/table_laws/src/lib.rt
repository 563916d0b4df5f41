//! Laws of one end's table of control procedures, over all lists of calls (Core 5.2, volume 6 part
//! B, section 5). Definitions and laws; no code.
#![tactic(auto)]

mod laws;
mod rows;

pub use crate::laws::{
    a_disconnect_is_sent_after_rejections, an_encryption_ends_by_its_last_pdu,
    beside_a_kept_pdu_only_encryption_waits, ends_send_by_role, few_control_pdus_wait,
    one_exclusive_procedure_at_a_time, outside_clear_and_secure_only_encryption_runs,
};
pub use crate::rows::{
    a_pdu_may_be_kept, a_peer_that_begins_anew_leaves_a_pdu, no_calls_lead_to_these,
    the_host_is_asked_after_its_disconnect, twenty_may_wait,
};
