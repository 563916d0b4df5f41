//! Scripts: each line has a call on a part of a controller, and after " =" what it gives. A
//! value is as `Debug` writes it, and numbers after 0x are hexadecimal.
use crate::{advertisers, frames, listeners, plans, views};
use advertise::AdvOn;
use h4_frames::Framer;
use host_view::HostView;
use scan_init::{AcceptList, Scanner};
use slot_plan::Plan;
use std::alloc::{AllocError, Global};
use std::process::Abort;
use test_words::{Call, TakesCalls, first_wrong};

/// The parts of a controller.
#[derive(Drop)]
struct Parts {
    framer: Framer,
    view: HostView,
    list: AcceptList,
    scanner: Scanner,
    advertiser: AdvOn,
    plan: Plan,
}

/// Makes each call of a script, and compares what it gives. A line that begins with "#" says what
/// follows.
pub(crate) fn check(rt: &impl Abort, alloc: Global, script: &str) -> Result<(), AllocError> {
    let mut parts = Parts {
        framer: Framer::new(),
        view: HostView::new(3),
        list: AcceptList::default(),
        scanner: listeners::new_scanner(),
        advertiser: advertisers::new_advertiser(),
        plan: Plan::default(),
    };
    let wrong = first_wrong(&mut parts, alloc, script)?;
    assert_eq!(rt; wrong.as_str(), "");
    Ok(())
}

impl TakesCalls for Parts {
    /// Makes a call on a part.
    fn take(&mut self, part: &str, call: Call<'_>, told: &mut String) -> Result<(), AllocError> {
        match part {
            "frames" => frames::take(&mut self.framer, call, told),
            "view" => views::take(&mut self.view, call, told),
            "list" => listeners::take_list(&mut self.list, call, told),
            "scanner" => listeners::take_scanner(&mut self.scanner, &self.list, call, told),
            "initiator" => listeners::take_initiator(&self.list, call, told),
            "advertiser" => advertisers::take(&mut self.advertiser, &self.list, call, told),
            "plan" => plans::take(&mut self.plan, call, told),
            "#" => Ok(()),
            _ => told.push_str(" which part?"),
        }
    }
}
