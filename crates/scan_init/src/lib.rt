//! Scanning and initiating: when each listens, what it does about a PDU that it hears, the accept
//! list, and the access addresses of new links (Core 5.2, volume 6 part B, sections 2.1.2, 4.3,
//! 4.4.3 and 4.4.4).
#![tactic(auto)]

mod accept_list;
mod access;
mod addresses;
mod initiator;
pub mod laws;
mod reports;
pub mod rows;
mod scanner;
mod windows;

pub use crate::accept_list::{ACCEPT_LIST_SIZE, AcceptList, ListFull};
pub use crate::access::next_access;
pub use crate::addresses::is_same_address;
pub use crate::initiator::{InitParams, Initiator};
pub use crate::reports::{Report, ReportKind};
pub use crate::scanner::{ScanAnswer, ScanParams, Scanner};
pub use crate::windows::slots_of;
