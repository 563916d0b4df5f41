//! Laws of scanning and initiating. The bodies do nothing: the contracts are the laws.
ghost use Rattle.std.specs.Prelude.{◌≡◌, ◌≢◌, ◌↔◌, ◌+◌, ◌*◌, ◌%◌, ◌<◌, ◌≤◌, ◌^◌, ℕ, Bool};
ghost use Rattle.std.specs.Prelude.{true, false, not, ◌==◌, ◌||◌, ◌&&◌, nat_lt, List, Some, None};
ghost use Rattle.std.specs.Prelude.{IfSome};
ghost use Rattle.std.specs.Prelude.{count_ones, if◌then◌else◌};
ghost use Rattle.ble_base.specs.declared.addresses.Address.{Address};
ghost use Rattle.adv_pdu.specs.declared.pdu.AdvPdu.{AdvPdu};
ghost use Rattle.adv_pdu.specs.declared.pdu.AdvPdu.TheVariants.{Direct};
ghost use Rattle.adv_pdu.specs.declared.pdu.ConnectFields.{ConnectFields};
ghost use Rattle.adv_pdu.specs.Pdu.{sender_of, type_of};
ghost use Rattle.scan_init.specs.declared.initiator.InitParams.{InitParams};
ghost use Rattle.scan_init.specs.declared.reports.Report.{Report};
ghost use Rattle.scan_init.specs.declared.scanner.ScanParams.{ScanParams};
ghost use Rattle.scan_init.specs.declared.scanner.ScanAnswer.TheVariants.{Ignore};
ghost use Rattle.scan_init.specs.Access.{IsNthAccess, access_at, is_valid_access, nth_access};
ghost use Rattle.scan_init.specs.Access.{bit_count, transitions_of, valid_count};
ghost use Rattle.std.specs.Int.{bit_at};
ghost use Rattle.scan_init.specs.Addresses.{IsAcceptList, is_full_for, is_listed};
ghost use Rattle.scan_init.specs.Addresses.{is_same_address, with_address, without_address};
ghost use Rattle.scan_init.specs.Initiating.{connect_fields, is_accepted};
ghost use Rattle.scan_init.specs.Reports.{last_16, reports_after};
ghost use Rattle.scan_init.specs.Reports.{scan_answer, does_ask};
ghost use Rattle.scan_init.specs.Windows.{scan_channel, slots_of};

/// The accept list is a set: an address that is added is in it as well as all before, one that is
/// removed is not, and the others stay. It has at most eight addresses, and none of them twice.
pub fn accept_list_is_a_set()
    ensures same { (one other : Address) → (is_same_address one other ≡ true) ↔ (one ≡ other) }
    ensures added { (list : List Address) (address other : Address)
        → is_listed (with_address list address) other
        ≡ (is_listed list other || is_same_address other address) }
    ensures removed { (list : List Address) (address other : Address)
        → is_listed (without_address list address) other
        ≡ (is_listed list other && not (is_same_address other address)) }
    ensures adding { (list : List Address) (address : Address) → IsAcceptList list
        → is_full_for list address ≡ false → IsAcceptList (with_address list address) }
    ensures removing { (list : List Address) (address : Address) → IsAcceptList list
        → IsAcceptList (without_address list address) }
{}

/// The conditions on access addresses, bit by bit: a place has a transition exactly where the bit
/// differs from the next one; transitions are counted bit by bit; and of seven bits in a row of a
/// valid address two neighbours differ.
pub fn transitions_are_changes_of_bits()
    ensures place { (access place : ℕ) → place < 31
        → bit_at (transitions_of access) place
        ≡ (bit_at access place + bit_at access (place + 1)) % 2 }
    ensures count { (bits : ℕ) → bits < 2 ^ 32 → bit_count bits ≡ count_ones bits }
    ensures seven { (access first : ℕ) → is_valid_access access ≡ true → first < 26
        → (place : ℕ) × (first ≤ place) × (place < first + 6)
        × (bit_at access place ≢ bit_at access (place + 1)) }
{}

/// One search after another gives the valid access addresses in the order of their distance: each
/// is valid, with its number it is preceded by exactly that many valid ones, none is passed over,
/// each is farther than all before, and none comes twice.
pub fn searches_give_each_valid_address()
    ensures valid { (cursor number : ℕ) → IfSome (nth_access cursor number)
        (λ found. IsNthAccess cursor number found.0 found.1) }
    ensures none_passed { (cursor travel : ℕ) → travel < 2 ^ 32
        → is_valid_access (access_at cursor travel) ≡ true
        → nth_access cursor (valid_count cursor travel)
        ≡ Some (access_at cursor travel, travel + 1) }
    ensures farther { (cursor m n a b first second : ℕ) → m < n
        → nth_access cursor m ≡ Some (a, first) → nth_access cursor n ≡ Some (b, second)
        → first < second }
    ensures distinct { (cursor m n a b first second : ℕ) → m < n
        → nth_access cursor m ≡ Some (a, first) → nth_access cursor n ≡ Some (b, second)
        → a ≢ b }
{}

/// A scanner or an initiator listens in the window at the beginning of each interval, on one of
/// three channels in turn.
pub fn windows_recur_on_three_channels()
    ensures { (interval window since count place : ℕ) → place < slots_of interval
        → scan_channel interval window since (since + (count * slots_of interval + place))
        ≡ (if nat_lt place (slots_of window) then Some (37 + count % 3) else None) }
{}

/// Of the reports that a scanner has made, the last 16 decide: it answers by these as by all of
/// them, and then holds the last 16 again.
pub fn last_reports_decide()
    ensures answer { (params : ScanParams) (list : List Address) (reported : List Report)
        (pdu : AdvPdu)
        → scan_answer params list (last_16 reported) pdu ≡ scan_answer params list reported pdu }
    ensures recent { (params : ScanParams) (list : List Address) (reported : List Report)
        (pdu : AdvPdu)
        → last_16 (reports_after params list (last_16 reported) pdu)
        ≡ last_16 (reports_after params list reported pdu) }
{}

/// A scanner asks exactly where it is active, the PDU is ADV_IND or ADV_SCAN_IND, and its sender
/// passes the filter. It ignores an advertisement that is directed to another device, and with
/// policy 1 each PDU of a sender that is not in the accept list.
pub fn scanners_keep_their_filter()
    ensures asks { (params : ScanParams) (list : List Address) (reported : List Report)
        (pdu : AdvPdu)
        → does_ask (scan_answer params list reported pdu)
        ≡ (params.active && (type_of pdu == 0 || type_of pdu == 6)
        && (not params.listed || is_listed list (sender_of pdu))) }
    ensures directed { (params : ScanParams) (list : List Address) (reported : List Report)
        (from to : Address) (ch_sel : Bool) → is_same_address params.own to ≡ false
        → scan_answer params list reported (Direct from to ch_sel) ≡ Ignore }
    ensures listed { (params : ScanParams) (list : List Address) (reported : List Report)
        (pdu : AdvPdu) → params.listed ≡ true → is_listed list (sender_of pdu) ≡ false
        → scan_answer params list reported pdu ≡ Ignore }
{}

/// An initiator answers ADV_IND and ADV_DIRECT_IND alone. Its CONNECT_IND has a hop increment of 5
/// to 16 and a CRCInit of 24 bits, whatever random word it drew.
pub fn initiators_connect_in_range()
    ensures connectable { (params : InitParams) (list : List Address) (pdu : AdvPdu)
        → is_accepted params list pdu ≡ true → type_of pdu ≤ 1 }
    ensures hop_from { (link : ConnectFields) (access word map : ℕ)
        → 5 ≤ (connect_fields link access word map).hop }
    ensures hop_to { (link : ConnectFields) (access word map : ℕ)
        → (connect_fields link access word map).hop ≤ 16 }
    ensures crc_init { (link : ConnectFields) (access word map : ℕ)
        → (connect_fields link access word map).crc_init < 2 ^ 24 }
{}
