//! Worked examples, which the definitions compute.
ghost use Rattle.std.specs.Prelude.{◌≡◌, true, [], ◌∷◌, map, Some, None};
ghost use Rattle.adv_pdu.specs.declared.pdu.AdvPdu.TheVariants.{Ind, Direct, Nonconn, ScanInd};
ghost use Rattle.advertise.specs.declared.answers.AdvAnswer.TheVariants.{Ignore, Respond};
ghost use Rattle.advertise.specs.declared.answers.AdvAnswer.TheVariants.{Connect as Connects};
ghost use Rattle.advertise.specs.Advertising.{advertisement, due_after, event_channel};
ghost use Rattle.advertise.specs.Answers.{advertiser_answer};
ghost use Rattle.advertise.specs.Rows.{advertising, connection, device, fields, scan_request};

/// What device 0A sends with each type, and with the data 020106; the channels of its event, of
/// which its host left one out; and when the next event is due after one in slot 7.
pub fn worked_advertisements()
    ensures sent { map (λ kind. advertisement (advertising kind 0) (2 ∷ 1 ∷ 6 ∷ []))
        (0 ∷ 2 ∷ 3 ∷ 4 ∷ [])
        ≡ Ind (device 0x0A) true (record { items = 2 ∷ 1 ∷ 6 ∷ [] })
        ∷ ScanInd (device 0x0A) (record { items = 2 ∷ 1 ∷ 6 ∷ [] })
        ∷ Nonconn (device 0x0A) (record { items = 2 ∷ 1 ∷ 6 ∷ [] })
        ∷ Direct (device 0x0A) (device 0x0B) true ∷ [] }
    ensures channels { map (event_channel (advertising 0 0).channels) (0 ∷ 1 ∷ 2 ∷ [])
        ≡ Some 37 ∷ None ∷ Some 39 ∷ [] }
    ensures due { map (λ interval. due_after interval 7) (0x20 ∷ 0x21 ∷ 0x22 ∷ [])
        ≡ 23 ∷ 24 ∷ 24 ∷ [] }
{}

/// Which scan requests device 0A answers: by its type; to another device; and by the filter policy,
/// with device 0B in the accept list and device 0C not.
pub fn worked_scan_requests()
    ensures types { map (λ kind. advertiser_answer (advertising kind 0) [] (scan_request 0x0B 0x0A))
        (0 ∷ 2 ∷ 3 ∷ 4 ∷ []) ≡ Respond ∷ Respond ∷ Ignore ∷ Ignore ∷ [] }
    ensures to_another { advertiser_answer (advertising 0 0) [] (scan_request 0x0B 0x0C) ≡ Ignore }
    ensures listed { map (λ policy. advertiser_answer (advertising 0 policy) (device 0x0B ∷ [])
        (scan_request 0x0B 0x0A)) (0 ∷ 1 ∷ 2 ∷ 3 ∷ [])
        ≡ Respond ∷ Respond ∷ Respond ∷ Respond ∷ [] }
    ensures unlisted { map (λ policy. advertiser_answer (advertising 0 policy) (device 0x0B ∷ [])
        (scan_request 0x0C 0x0A)) (0 ∷ 1 ∷ 2 ∷ 3 ∷ [])
        ≡ Respond ∷ Ignore ∷ Respond ∷ Ignore ∷ [] }
{}

/// Which CONNECT_INDs device 0A takes: by its type; to another device; from another device than the
/// target; directed, whatever the filter policy is; and else by the policy, with device 0B in the
/// accept list and device 0C not.
pub fn worked_connections()
    ensures types { map (λ kind. advertiser_answer (advertising kind 0) []
        (connection 0x0B 0x0A fields)) (0 ∷ 2 ∷ 3 ∷ 4 ∷ []) ≡ Connects fields ∷ Ignore ∷ Ignore ∷ Connects fields ∷ [] }
    ensures to_another { advertiser_answer (advertising 0 0) []
        (connection 0x0B 0x0C fields) ≡ Ignore }
    ensures from_another { advertiser_answer (advertising 4 0) []
        (connection 0x0C 0x0A fields) ≡ Ignore }
    ensures directed { map (λ policy. advertiser_answer (advertising 4 policy) []
        (connection 0x0B 0x0A fields)) (2 ∷ 3 ∷ []) ≡ Connects fields ∷ Connects fields ∷ [] }
    ensures listed { map (λ policy. advertiser_answer (advertising 0 policy) (device 0x0B ∷ [])
        (connection 0x0B 0x0A fields)) (2 ∷ 3 ∷ []) ≡ Connects fields ∷ Connects fields ∷ [] }
    ensures unlisted { map (λ policy. advertiser_answer (advertising 0 policy) (device 0x0B ∷ [])
        (connection 0x0C 0x0A fields)) (0 ∷ 1 ∷ 2 ∷ 3 ∷ [])
        ≡ Connects fields ∷ Connects fields ∷ Ignore ∷ Ignore ∷ [] }
{}

/// CONNECT_INDs that are ignored, each for one field out of range: WinSize 2, WinOffset over the
/// interval, an interval of 5, a latency of 500, a timeout that is not longer than the interval,
/// Hop 4 and 17, a map of one channel, and one with a channel of advertising.
pub fn worked_ranges()
    ensures { map (λ changed. advertiser_answer (advertising 0 0) [] (connection 0x0B 0x0A changed))
        (record fields { win_size = 2 } ∷ record fields { win_offset = 25 }
        ∷ record fields { interval = 5 } ∷ record fields { latency = 500; timeout = 3200 }
        ∷ record fields { interval = 288 } ∷ record fields { hop = 4 } ∷ record fields { hop = 17 }
        ∷ record fields { map = 1 } ∷ record fields { map = 0x3FFFFFFFFF } ∷ [])
        ≡ Ignore ∷ Ignore ∷ Ignore ∷ Ignore ∷ Ignore ∷ Ignore ∷ Ignore ∷ Ignore ∷ Ignore ∷ [] }
{}
