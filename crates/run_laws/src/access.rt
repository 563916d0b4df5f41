//! The access addresses of the links of a station in each run. The body only calls the laws that it
//! rests on: the contract is the law.
ghost use Rattle.std.specs.Prelude.{◌≡◌, ◌≢◌, ◌<◌, ℕ, List, Some, length};
ghost use Rattle.adv_pdu.specs.declared.pdu.ConnectFields.{ConnectFields};
ghost use Rattle.scan_init.specs.Access.{nth_access};
ghost use Rattle.run_model.specs.controller_model.Heard.{access_found};
ghost use Rattle.run_model.specs.Feeding.{AreDistinct};
ghost use Rattle.run_model.specs.History.{Event};
ghost use Rattle.run_model.specs.LinkEnds.{HaveAddresses};
ghost use Rattle.run_model.specs.Run.{Given, history_of, run_of, setup_at};
ghost use Rattle.run_laws.specs.Access.{IsConnectSent, connects_sent};

/// The CONNECT_INDs of a station have the valid access addresses from its cursor on, in order: the
/// one with number n, from 0 on, has the n-th of them, whatever comes between, a Reset too. So no
/// two CONNECT_INDs of one station have the same access address (Core 5.2, volume 6 part B, section
/// 2.1.2).
pub fn access_addresses_are_taken_in_order()
    ensures in_order { (given : Given) (before : List Event) (station : ℕ) (fields : ConnectFields)
        → AreDistinct given.stations → HaveAddresses given
        → IsConnectSent (history_of (run_of given)) before station fields
        → access_found (nth_access (setup_at given station).cursor (connects_sent station before))
        ≡ Some fields.access }
    ensures distinct { (given : Given) (before later : List Event) (station : ℕ)
        (fields other : ConnectFields) → AreDistinct given.stations → HaveAddresses given
        → IsConnectSent (history_of (run_of given)) before station fields
        → IsConnectSent (history_of (run_of given)) later station other
        → length before < length later → fields.access ≢ other.access }
{
    run_model::a_pdu_is_understood();
    scan_init::laws::searches_give_each_valid_address();
}
