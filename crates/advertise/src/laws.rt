//! Laws of advertising. The bodies do nothing: the contracts are the laws.
ghost use Rattle.std.specs.Prelude.{◌≡◌, ◌≢◌, ◌↔◌, ◌+◌, ◌*◌, ◌≤◌, ℕ, Bool, true, false, List, ◌∷◌};
ghost use Rattle.std.specs.Prelude.{slice_get, Some};
ghost use Rattle.ble_base.specs.Bits.{has_bit};
ghost use Rattle.ble_base.specs.ChannelMap.{IsMap};
ghost use Rattle.ble_base.specs.declared.addresses.Address.{Address};
ghost use Rattle.data_pdu.specs.Ranges.{IsUpdate};
ghost use Rattle.adv_pdu.specs.declared.pdu.AdvPdu.{AdvPdu};
ghost use Rattle.adv_pdu.specs.declared.pdu.AdvPdu.TheVariants.{ScanReq, Connect};
ghost use Rattle.adv_pdu.specs.declared.pdu.ConnectFields.{ConnectFields};
ghost use Rattle.adv_pdu.specs.Pdu.{ch_sel_of, sender_of, target_of, type_of};
ghost use Rattle.adv_pdu.specs.Ranges.{IsInRange};
ghost use Rattle.advertise.specs.declared.answers.AdvAnswer.TheVariants.{Ignore, Respond};
ghost use Rattle.advertise.specs.declared.answers.AdvAnswer.TheVariants.{Connect as Connects};
ghost use Rattle.advertise.specs.declared.params.AdvParams.{AdvParams};
ghost use Rattle.advertise.specs.Advertising.{BeginWhenDue, advertisement, is_directed};
ghost use Rattle.advertise.specs.Advertising.{is_scannable, nth_due};
ghost use Rattle.advertise.specs.Answers.{IsTaken, advertiser_answer, lets_connect, lets_scan};
ghost use Rattle.scan_init.specs.declared.initiator.InitParams.{InitParams};
ghost use Rattle.scan_init.specs.declared.reports.Report.{Report};
ghost use Rattle.scan_init.specs.declared.scanner.ScanParams.{ScanParams};
ghost use Rattle.scan_init.specs.Addresses.{is_listed};
ghost use Rattle.scan_init.specs.Initiating.{connect_fields, is_accepted};
ghost use Rattle.scan_init.specs.Reports.{does_ask, scan_answer};
ghost use Rattle.scan_init.specs.Windows.{slots_of};

/// The first event begins no earlier than the advertiser was turned on, and each next one no
/// earlier than an interval after the one before, which is 16 slots or more for an interval that a
/// host may set. Where each begins as soon as it is due, they are exactly an interval apart.
pub fn events_are_an_interval_apart()
    ensures first { (interval since first : ℕ) (slots : List ℕ)
        → BeginWhenDue interval since (first ∷ slots) → since ≤ first }
    ensures apart { (interval since number one next : ℕ) (slots : List ℕ)
        → BeginWhenDue interval since slots → slice_get slots number ≡ Some one
        → slice_get slots (number + 1) ≡ Some next → one + slots_of interval ≤ next }
    ensures least { (interval : ℕ) → 0x0020 ≤ interval → 16 ≤ slots_of interval }
    ensures at_once { (interval since number : ℕ)
        → nth_due interval since number ≡ since + number * slots_of interval }
{}

/// What each type of advertising sends: ADV_IND, ADV_SCAN_IND, ADV_NONCONN_IND and, to its target,
/// ADV_DIRECT_IND, from its own address, with ChSel 1 where the PDU has that bit.
pub fn each_type_has_its_advertisement()
    ensures undirected { (params : AdvParams) (octets : List ℕ) → params.kind ≡ 0
        → type_of (advertisement params octets) ≡ 0 }
    ensures scannable { (params : AdvParams) (octets : List ℕ) → params.kind ≡ 2
        → type_of (advertisement params octets) ≡ 6 }
    ensures nonconnectable { (params : AdvParams) (octets : List ℕ) → params.kind ≡ 3
        → type_of (advertisement params octets) ≡ 2 }
    ensures directed { (params : AdvParams) (octets : List ℕ) → params.kind ≡ 4
        → type_of (advertisement params octets) ≡ 1 }
    ensures target { (params : AdvParams) (octets : List ℕ) → params.kind ≡ 4
        → target_of (advertisement params octets) ≡ Some params.target }
    ensures sender { (params : AdvParams) (octets : List ℕ)
        → sender_of (advertisement params octets) ≡ params.own }
    ensures ch_sel { (params : AdvParams) (octets : List ℕ)
        → type_of (advertisement params octets) ≤ 1
        → ch_sel_of (advertisement params octets) ≡ true }
{}

/// A scan request is answered exactly where it follows an advertisement that may be scanned, is to
/// the advertiser, and comes from the accept list if the policy asks for that.
pub fn scan_requests_are_answered()
    ensures { (params : AdvParams) (list : List Address) (from to : Address)
        → (advertiser_answer params list (ScanReq from to) ≡ Respond)
        ↔ ((is_scannable params.kind ≡ true) × (to ≡ params.own)
        × (has_bit params.policy 0 ≡ true → is_listed list from ≡ true)) }
{}

/// A CONNECT_IND is taken exactly where it follows a connectable advertisement, is to the
/// advertiser, comes from the target of directed advertising, or else from the accept list if the
/// policy asks for that, and has all fields in range; and with the fields that it has. Directed
/// advertising does not look at its policy.
pub fn connections_are_taken()
    ensures taken { (params : AdvParams) (list : List Address) (from to : Address) (ch_sel : Bool)
        (fields taken : ConnectFields)
        → advertiser_answer params list (Connect from to ch_sel fields) ≡ Connects taken
        → IsTaken params list from to fields × (taken ≡ fields) }
    ensures takes { (params : AdvParams) (list : List Address) (from to : Address) (ch_sel : Bool)
        (fields : ConnectFields) → IsTaken params list from to fields
        → advertiser_answer params list (Connect from to ch_sel fields) ≡ Connects fields }
{}

/// No PDU is answered after ADV_NONCONN_IND, no scan request after ADV_DIRECT_IND, no CONNECT_IND
/// after ADV_SCAN_IND, and never any PDU that is neither of the two.
pub fn other_requests_are_ignored()
    ensures nonconnectable { (params : AdvParams) (list : List Address) (pdu : AdvPdu)
        → params.kind ≡ 3 → advertiser_answer params list pdu ≡ Ignore }
    ensures directed { (params : AdvParams) (list : List Address) (from to : Address)
        → params.kind ≡ 4 → advertiser_answer params list (ScanReq from to) ≡ Ignore }
    ensures scannable { (params : AdvParams) (list : List Address) (from to : Address)
        (ch_sel : Bool) (fields : ConnectFields)
        → params.kind ≡ 2 → advertiser_answer params list (Connect from to ch_sel fields) ≡ Ignore }
    ensures others { (params : AdvParams) (list : List Address) (pdu : AdvPdu)
        → type_of pdu ≢ 3 → type_of pdu ≢ 5 → advertiser_answer params list pdu ≡ Ignore }
{}

/// A scanner and an initiator of this controller ask only what its advertiser answers. The SCAN_REQ
/// of a scanner is answered, and the CONNECT_IND of an initiator taken, where the policy of the
/// advertiser lets them pass, at which directed advertising does not look. The fields of that
/// CONNECT_IND are in range where the host's parameters are.
pub fn requests_to_an_advertiser_are_answered()
    ensures scan { (params : AdvParams) (scan : ScanParams) (list heard : List Address)
        (reported : List Report) (octets : List ℕ)
        → lets_scan params.policy list scan.own ≡ true
        → does_ask (scan_answer scan heard reported (advertisement params octets)) ≡ true
        → advertiser_answer params list (ScanReq scan.own params.own) ≡ Respond }
    ensures connect { (params : AdvParams) (init : InitParams) (list heard : List Address)
        (octets : List ℕ) (ch_sel : Bool) (fields : ConnectFields)
        → (is_directed params.kind ≡ false → lets_connect params.policy list init.own ≡ true)
        → IsInRange fields
        → is_accepted init heard (advertisement params octets) ≡ true
        → advertiser_answer params list (Connect init.own params.own ch_sel fields)
        ≡ Connects fields }
    ensures in_range { (link : ConnectFields) (access word map : ℕ)
        → IsUpdate link.win_size link.win_offset link.interval link.latency link.timeout
        → IsMap map → IsInRange (connect_fields link access word map) }
{}
