//! Worked examples, which the definitions compute.
ghost use Rattle.std.specs.Prelude.{◌≡◌, ◌-◌, ◌^◌, ◌++◌, true, false, [], ◌∷◌, map, Some, None};
ghost use Rattle.scan_init.specs.declared.reports.ReportKind.TheVariants.{Undirected, Scannable};
ghost use Rattle.scan_init.specs.declared.reports.ReportKind.TheVariants.{Response};
ghost use Rattle.scan_init.specs.declared.scanner.ScanAnswer.TheVariants.{Ignore, Ask};
ghost use Rattle.scan_init.specs.declared.scanner.ScanAnswer.TheVariants.{Report as Reports};
ghost use Rattle.scan_init.specs.declared.scanner.ScanAnswer.TheVariants.{ReportAndAsk};
ghost use Rattle.scan_init.specs.Access.{is_valid_access, next_access_of, nth_access};
ghost use Rattle.scan_init.specs.Initiating.{connect_fields, is_accepted};
ghost use Rattle.scan_init.specs.Reports.{reports_after, scan_answer};
ghost use Rattle.scan_init.specs.Rows.{adv_direct_ind, adv_ind, adv_nonconn_ind, adv_scan_ind};
ghost use Rattle.scan_init.specs.Rows.{device, initiator, report_from, reports_down, scan_rsp};
ghost use Rattle.scan_init.specs.Rows.{scanner};
ghost use Rattle.scan_init.specs.Windows.{scan_channel};

/// Access addresses that a link may have, the last two with 24 transitions and with six equal bits;
/// and some that it may not: that of the advertising channels, one bit from it, seven equal bits,
/// four equal octets, 25 transitions, and one transition in the six most significant bits. The
/// first addresses from a cursor, the last one before the distance is 2^32, and none from there.
pub fn worked_access_addresses()
    ensures valid { map is_valid_access
        (0x71764129 ∷ 0x7176412A ∷ 0x8E89BED5 ∷ 0xEC953555 ∷ 0xD23F0824 ∷ [])
        ≡ true ∷ true ∷ true ∷ true ∷ true ∷ [] }
    ensures not_valid { map is_valid_access
        (0x8E89BED6 ∷ 0x8E89BED7 ∷ 0xBFAFC132 ∷ 0x09090909 ∷ 0x2AF5AD55 ∷ 0x7CF36DD3 ∷ [])
        ≡ false ∷ false ∷ false ∷ false ∷ false ∷ false ∷ [] }
    ensures first { next_access_of 0x71764129 0 ≡ Some (0x71764129, 1) }
    ensures second { next_access_of 0x71764129 1 ≡ Some (0x7176412A, 2) }
    ensures third { nth_access 0x71764129 2 ≡ Some (0x7176412B, 3) }
    ensures passed_over { next_access_of 0x8E89BED6 0 ≡ Some (0x8E89BED8, 3) }
    ensures last { next_access_of 0x71764129 (2 ^ 32 - 1) ≡ Some (0x71764128, 2 ^ 32) }
    ensures none { next_access_of 0x71764129 (2 ^ 32) ≡ None }
{}

/// A scanner that began in slot 5 with an interval of 16 slots and a window of 8; and one with
/// units of 0.625 ms that do not fill a slot: an interval of 3 slots and a window of 2.
pub fn worked_windows()
    ensures channels { map (scan_channel 0x20 0x10 5)
        (5 ∷ 12 ∷ 13 ∷ 20 ∷ 21 ∷ 28 ∷ 29 ∷ 37 ∷ 53 ∷ [])
        ≡ Some 37 ∷ Some 37 ∷ None ∷ None ∷ Some 38 ∷ Some 38 ∷ None ∷ Some 39 ∷ Some 37 ∷ [] }
    ensures rounded_up { map (scan_channel 5 3 0) (0 ∷ 1 ∷ 2 ∷ 3 ∷ 4 ∷ 5 ∷ 6 ∷ [])
        ≡ Some 37 ∷ Some 37 ∷ None ∷ Some 38 ∷ Some 38 ∷ None ∷ Some 39 ∷ [] }
{}

/// What a scanner of device 0B does: passive and active; about a directed advertisement to it and
/// to another; with a filter; and about a duplicate of the 16th and of the 17th report before.
pub fn worked_reports()
    ensures passive { map (scan_answer (scanner false false false) [] [])
        (adv_ind 0x0A ∷ adv_nonconn_ind 0x0A ∷ adv_scan_ind 0x0A ∷ scan_rsp 0x0A ∷ [])
        ≡ Reports ∷ Reports ∷ Reports ∷ Ignore ∷ [] }
    ensures active { map (scan_answer (scanner true false false) [] [])
        (adv_ind 0x0A ∷ adv_nonconn_ind 0x0A ∷ adv_scan_ind 0x0A ∷ scan_rsp 0x0A ∷ [])
        ≡ ReportAndAsk ∷ Reports ∷ ReportAndAsk ∷ Reports ∷ [] }
    ensures to_one { map (scan_answer (scanner true false false) [] [])
        (adv_direct_ind 0x0A 0x0B ∷ adv_direct_ind 0x0A 0x0C ∷ []) ≡ Reports ∷ Ignore ∷ [] }
    ensures filtered { map (scan_answer (scanner true true false) (device 0x0A ∷ []) [])
        (adv_ind 0x0A ∷ adv_ind 0x0C ∷ adv_direct_ind 0x0A 0x0B ∷ adv_direct_ind 0x0C 0x0B ∷ [])
        ≡ ReportAndAsk ∷ Ignore ∷ Reports ∷ Ignore ∷ [] }
    ensures duplicate { map (scan_answer (scanner true false true) [] (reports_down Scannable 16))
        (adv_scan_ind 16 ∷ adv_scan_ind 1 ∷ adv_ind 1 ∷ scan_rsp 1 ∷ [])
        ≡ Ask ∷ Ask ∷ ReportAndAsk ∷ Reports ∷ [] }
    ensures long_ago { map (scan_answer (scanner false false true) []
        (reports_down Undirected 17)) (adv_ind 17 ∷ adv_ind 16 ∷ [])
        ≡ Reports ∷ Ignore ∷ [] }
    ensures made { reports_after (scanner false false true) [] (reports_down Response 2)
        (adv_scan_ind 1) ≡ reports_down Response 2 ++ report_from Scannable 1 ∷ [] }
{}

/// Which advertisements an initiator of device 0B answers: with a peer that its host named, and
/// with an accept list. The CRCInit and the hop increment that come from random words.
pub fn worked_connections()
    ensures named { map (is_accepted (initiator (Some (device 0x0A))) [])
        (adv_ind 0x0A ∷ adv_ind 0x0C ∷ adv_direct_ind 0x0A 0x0B ∷ adv_direct_ind 0x0A 0x0C
        ∷ adv_nonconn_ind 0x0A ∷ adv_scan_ind 0x0A ∷ scan_rsp 0x0A ∷ [])
        ≡ true ∷ false ∷ true ∷ false ∷ false ∷ false ∷ false ∷ [] }
    ensures listed { map (is_accepted (initiator None) (device 0x0C ∷ []))
        (adv_ind 0x0A ∷ adv_ind 0x0C ∷ adv_direct_ind 0x0C 0x0B ∷ [])
        ≡ false ∷ true ∷ true ∷ [] }
    ensures hops { map (λ word. (connect_fields (initiator None).link 0x71764129 word 3).hop)
        (1 ∷ 0x0B000000 ∷ 0x0C000000 ∷ 0xFF0A0B0C ∷ 0x1FF0A0B0C ∷ [])
        ≡ 5 ∷ 16 ∷ 5 ∷ 8 ∷ 8 ∷ [] }
    ensures crc_inits { map
        (λ word. (connect_fields (initiator None).link 0x71764129 word 3).crc_init) (1 ∷ 0x0B000000 ∷ 0xFF0A0B0C ∷ []) ≡ 1 ∷ 0 ∷ 0x0A0B0C ∷ [] }
{}
