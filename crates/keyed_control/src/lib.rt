//! One end of a link with its phase of encryption, its keys and its counters, over all lists of
//! steps (Core 5.2, volume 6 part B, section 5.1.3). Definitions and laws; no code but the types
//! that the definitions speak of.
#![tactic(auto)]

mod laws;
mod material;
mod rows;

pub use crate::laws::{
    a_central_has_the_halves_of_its_request, an_end_moves_by_phased_steps,
    an_end_seals_in_its_phase,
};
pub use crate::material::{KeyMaterial, Response};
pub use crate::rows::{
    a_session_begun_in_clear_is_refused, a_start_at_a_central_has_its_session,
    a_start_at_a_peripheral_has_its_session, the_session_of_the_sample, wrong_counters_are_refused,
    wrong_material_is_refused,
};
