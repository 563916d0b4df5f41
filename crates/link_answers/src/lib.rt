//! What the control procedures of one end of a link owe its peer: which indications a central
//! sends, by its own procedures and by those of the peripheral (Core 5.2, volume 6 part B, sections
//! 5.1 and 5.3). Definitions and laws; no code.
#![tactic(auto)]

mod laws;

pub use crate::laws::{
    a_central_sends_what_its_procedures_owe, an_indication_that_is_owed_is_of_the_own_procedure,
};
