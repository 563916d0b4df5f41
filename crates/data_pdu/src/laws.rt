//! Laws of control PDUs. The bodies do nothing: the contracts are the laws.
ghost use Rattle.std.specs.Prelude.{◌≡◌, ◌↔◌, IsTrue};
ghost use Rattle.data_pdu.specs.Ranges.{is_in_range, IsInRange};
ghost use Rattle.data_pdu.specs.Layouts.{written, IsCtrl};
ghost use Rattle.data_pdu.specs.Reading.{ctrl_of};
ghost use Rattle.data_pdu.specs.declared.ctrl.Ctrl.{Ctrl};

use crate::ctrl::CtrlRead;

/// The test of the ranges holds exactly where the fields are in their ranges.
pub fn ranges_are_tested()
    ensures { (ctrl : Ctrl) → IsTrue (is_in_range ctrl) ↔ IsInRange ctrl }
{}

/// The octets of a control PDU are read as that control PDU; so no two have the same octets.
pub fn written_is_read()
    ensures read { (ctrl : Ctrl) → IsCtrl ctrl → ctrl_of (written ctrl) ≡ CtrlRead.Known ctrl }
    ensures one { (ctrl other : Ctrl) → IsCtrl ctrl → IsCtrl other → written ctrl ≡ written other
        → ctrl ≡ other }
{}
