//! As a turn begins, an end fixes the PDU that it sends next.
ghost use Rattle.std.specs.Prelude.{◌≡◌, ◌<◌, ◌≤◌, length, nat_lt};
ghost use Rattle.acl_banks.specs.Banks.{next_length, next_piece, unsent_of};
ghost use Rattle.link_model.specs.Acknowledgement.{empty_pdu};
ghost use Rattle.link_end.specs.Fixing.{held_fixed, held_fixed_anew, limit_of};
ghost use Rattle.link_end.specs.Fixing.{is_last_of_all, more_fixed_by, pdu_fixed_by};
ghost use Rattle.link_model.specs.Fixing.{waits_again};
ghost use Rattle.link_end.specs.Pdus.{pdu_value};

use crate::controls::{has_next, limit};
use crate::ends::LinkEnd;
use crate::pdus::Pdu;
use acl_banks::{Piece, TxBank};

/// The PDU of data that is fixed, by the next piece: none where a control PDU is next, or no data
/// may go.
fn pdu_fixed(control: bool, goes: bool, next: Option<Piece>) -> Pdu
    ensures value { pdu_value result ≡ pdu_fixed_by control goes next }
    ensures two_bits { result.llid < 4 }
{
    if control || !goes {
        Pdu::empty()
    } else {
        Pdu::with(next)
    }
}

/// Whether a further PDU waits after that one.
fn more_fixed(
    control: bool,
    waiting: usize,
    quiet: bool,
    goes: bool,
    next: &Option<Piece>,
    left: bool,
) -> bool
    ensures { result ≡ more_fixed_by control waiting quiet goes next.now left }
{
    if control {
        waiting > 1 || (quiet && next.is_some())
    } else {
        goes && left
    }
}

/// Whether a PDU waits after the last one, where that is sent again: the one that is fixed, and
/// after LL_TERMINATE_IND, which `ends` the link, what is left, although it never goes.
fn waits_again(
    ends: bool,
    control: bool,
    goes: bool,
    quiet: bool,
    waiting: usize,
    next: &Option<Piece>,
) -> bool
    ensures { result ≡ waits_again ends control goes quiet waiting next.now }
{
    if ends {
        waiting > 0 || (quiet && next.is_some())
    } else {
        control || (goes && next.is_some())
    }
}

impl LinkEnd {
    /// Whether nothing is sent after its last PDU: that is LL_TERMINATE_IND of a Disconnect.
    fn is_last_of_all(&self) -> bool
        ensures { result ≡ is_last_of_all self.now }
    {
        self.control.is_disconnecting() && self.last.is_terminate()
    }

    /// Fixes the PDU that it sends next, and whether a further one waits after it, or after the
    /// last one.
    fn fix_anew<const T: usize>(&mut self, tx: &TxBank<T>)
        requires entered { 1 ≤ self.old.control.control.track.entered }
        ensures { self.new
            ≡ held_fixed_anew (next_piece tx.now self.old.setup.link.handle (limit_of self.old))
            (nat_lt (next_length tx.now self.old.setup.link.handle (limit_of self.old))
            (length (unsent_of tx.now self.old.setup.link.handle))) self.old }
    {
        let handle = self.setup.handle;
        let limit = limit(&self.control);
        let control = has_next(&self.control);
        let quiet = self.control.is_quiet();
        let goes = quiet && !self.control.is_disconnecting();
        let next = tx.peek(handle, limit);
        let left = tx.waits(handle, limit);
        let waiting = self.control.waiting();
        let ends = self.is_last_of_all();
        self.more = more_fixed(control, waiting, quiet, goes, &next, left);
        self.more_again = waits_again(ends, control, goes, quiet, waiting, &next);
        self.fixed = pdu_fixed(control, goes, next);
        self.fixes_control = control;
    }

    /// The same, unless a control PDU that has left the queue is not sent yet.
    pub(crate) fn fix<const T: usize>(&mut self, tx: &TxBank<T>)
        requires entered { 1 ≤ self.old.control.control.track.entered }
        ensures { self.new
            ≡ held_fixed (next_piece tx.now self.old.setup.link.handle (limit_of self.old))
            (nat_lt (next_length tx.now self.old.setup.link.handle (limit_of self.old))
            (length (unsent_of tx.now self.old.setup.link.handle))) self.old }
    {
        if !self.fixed.is_control() {
            self.fix_anew(tx);
        }
    }
}
