//! The names of control PDUs: their octets are by hand from their layouts (Core 5.2, volume 6 part
//! B, section 2.4.2), and a second program made the expected rows.
use crate::rows::check;
use std::alloc::AllocError;

/// Each control PDU, five payloads that are none, and payloads of data.
const TEXT: &[u8] = b"\
sent a 1 1 3 0001020103020400050c0706
sent b 1 2 3 0115141302111716
took a 1 3 3 0213
took b 1 4 3 039078563412efcdab74241302f1e0dfcebdac24abdcba
sent a 1 5 3 047968574635241302bebaafde
sent b 1 6 3 05
took a 1 7 3 06
took b 1 8 3 071c
sent a 1 9 3 080807060504030201
sent b 1 10 3 091817161514131211
took a 1 11 3 0a
took b 1 12 3 0b
sent a 1 13 3 0c0b02010403
sent b 1 14 3 0d1a
took a 1 15 3 0e2827262524232221
took b 1 16 3 0f0201040306050807090b0a0d0c0f0e1110131215141716
sent a 1 17 3 103231343336353837393b3a3d3c3f3e4140434245444746
sent b 1 18 3 110f3b
took a 1 19 3 14fb0048081b004801
took b 1 20 3 150201040306050807
sent a 1 21 3 160102
sent b 1 22 3 170301
took a 1 23 3 1800000201
took b 1 24 3 190000
sent a 1 25 3 12
sent b 1 26 3 -
took a 1 27 3 0500
took b 1 28 3 1801000000
sent b 2 1 2 0213
sent b 2 2 1 05
sent b 2 3 0 -
";

const ROWS: &[u8] = b"\
<rect x=\"104\" y=\"76\" width=\"1068\" height=\"24\" class=\"event\"></rect>
<text x=\"408\" y=\"91\" class=\"note-a\">sent: link 1, PDU 1, LL_CONNECTION_UPDATE_IND</text>
<rect x=\"104\" y=\"100\" width=\"1068\" height=\"24\" class=\"event\"></rect>
<text x=\"872\" y=\"115\" class=\"note-b\">sent: link 1, PDU 2, LL_CHANNEL_MAP_IND</text>
<rect x=\"104\" y=\"124\" width=\"1068\" height=\"24\" class=\"event\"></rect>
<text x=\"408\" y=\"139\" class=\"note-a\">took: link 1, PDU 3, LL_TERMINATE_IND</text>
<rect x=\"104\" y=\"148\" width=\"1068\" height=\"24\" class=\"event\"></rect>
<text x=\"872\" y=\"163\" class=\"note-b\">took: link 1, PDU 4, LL_ENC_REQ</text>
<rect x=\"104\" y=\"172\" width=\"1068\" height=\"24\" class=\"event\"></rect>
<text x=\"408\" y=\"187\" class=\"note-a\">sent: link 1, PDU 5, LL_ENC_RSP</text>
<rect x=\"104\" y=\"196\" width=\"1068\" height=\"24\" class=\"event\"></rect>
<text x=\"872\" y=\"211\" class=\"note-b\">sent: link 1, PDU 6, LL_START_ENC_REQ</text>
<rect x=\"104\" y=\"220\" width=\"1068\" height=\"24\" class=\"event\"></rect>
<text x=\"408\" y=\"235\" class=\"note-a\">took: link 1, PDU 7, LL_START_ENC_RSP</text>
<rect x=\"104\" y=\"244\" width=\"1068\" height=\"24\" class=\"event\"></rect>
<text x=\"872\" y=\"259\" class=\"note-b\">took: link 1, PDU 8, LL_UNKNOWN_RSP</text>
<rect x=\"104\" y=\"268\" width=\"1068\" height=\"24\" class=\"event\"></rect>
<text x=\"408\" y=\"283\" class=\"note-a\">sent: link 1, PDU 9, LL_FEATURE_REQ</text>
<rect x=\"104\" y=\"292\" width=\"1068\" height=\"24\" class=\"event\"></rect>
<text x=\"872\" y=\"307\" class=\"note-b\">sent: link 1, PDU 10, LL_FEATURE_RSP</text>
<rect x=\"104\" y=\"316\" width=\"1068\" height=\"24\" class=\"event\"></rect>
<text x=\"408\" y=\"331\" class=\"note-a\">took: link 1, PDU 11, LL_PAUSE_ENC_REQ</text>
<rect x=\"104\" y=\"340\" width=\"1068\" height=\"24\" class=\"event\"></rect>
<text x=\"872\" y=\"355\" class=\"note-b\">took: link 1, PDU 12, LL_PAUSE_ENC_RSP</text>
<rect x=\"104\" y=\"364\" width=\"1068\" height=\"24\" class=\"event\"></rect>
<text x=\"408\" y=\"379\" class=\"note-a\">sent: link 1, PDU 13, LL_VERSION_IND</text>
<rect x=\"104\" y=\"388\" width=\"1068\" height=\"24\" class=\"event\"></rect>
<text x=\"872\" y=\"403\" class=\"note-b\">sent: link 1, PDU 14, LL_REJECT_IND</text>
<rect x=\"104\" y=\"412\" width=\"1068\" height=\"24\" class=\"event\"></rect>
<text x=\"408\" y=\"427\" class=\"note-a\">took: link 1, PDU 15, LL_PERIPHERAL_FEATURE_REQ</text>
<rect x=\"104\" y=\"436\" width=\"1068\" height=\"24\" class=\"event\"></rect>
<text x=\"872\" y=\"451\" class=\"note-b\">took: link 1, PDU 16, LL_CONNECTION_PARAM_REQ</text>
<rect x=\"104\" y=\"460\" width=\"1068\" height=\"24\" class=\"event\"></rect>
<text x=\"408\" y=\"475\" class=\"note-a\">sent: link 1, PDU 17, LL_CONNECTION_PARAM_RSP</text>
<rect x=\"104\" y=\"484\" width=\"1068\" height=\"24\" class=\"event\"></rect>
<text x=\"872\" y=\"499\" class=\"note-b\">sent: link 1, PDU 18, LL_REJECT_EXT_IND</text>
<rect x=\"104\" y=\"508\" width=\"1068\" height=\"24\" class=\"event\"></rect>
<text x=\"408\" y=\"523\" class=\"note-a\">took: link 1, PDU 19, LL_LENGTH_REQ</text>
<rect x=\"104\" y=\"532\" width=\"1068\" height=\"24\" class=\"event\"></rect>
<text x=\"872\" y=\"547\" class=\"note-b\">took: link 1, PDU 20, LL_LENGTH_RSP</text>
<rect x=\"104\" y=\"556\" width=\"1068\" height=\"24\" class=\"event\"></rect>
<text x=\"408\" y=\"571\" class=\"note-a\">sent: link 1, PDU 21, LL_PHY_REQ</text>
<rect x=\"104\" y=\"580\" width=\"1068\" height=\"24\" class=\"event\"></rect>
<text x=\"872\" y=\"595\" class=\"note-b\">sent: link 1, PDU 22, LL_PHY_RSP</text>
<rect x=\"104\" y=\"604\" width=\"1068\" height=\"24\" class=\"event\"></rect>
<text x=\"408\" y=\"619\" class=\"note-a\">took: link 1, PDU 23, LL_PHY_UPDATE_IND</text>
<rect x=\"104\" y=\"628\" width=\"1068\" height=\"24\" class=\"event\"></rect>
<text x=\"872\" y=\"643\" class=\"note-b\">took: link 1, PDU 24, control, 3 octets</text>
<rect x=\"104\" y=\"652\" width=\"1068\" height=\"24\" class=\"event\"></rect>
<text x=\"408\" y=\"667\" class=\"note-a\">sent: link 1, PDU 25, control, 1 octets</text>
<rect x=\"104\" y=\"676\" width=\"1068\" height=\"24\" class=\"event\"></rect>
<text x=\"872\" y=\"691\" class=\"note-b\">sent: link 1, PDU 26, control, 0 octets</text>
<rect x=\"104\" y=\"700\" width=\"1068\" height=\"24\" class=\"event\"></rect>
<text x=\"408\" y=\"715\" class=\"note-a\">took: link 1, PDU 27, control, 2 octets</text>
<rect x=\"104\" y=\"724\" width=\"1068\" height=\"24\" class=\"event\"></rect>
<text x=\"872\" y=\"739\" class=\"note-b\">took: link 1, PDU 28, control, 5 octets</text>
<rect x=\"104\" y=\"748\" width=\"1068\" height=\"24\" class=\"event\"></rect>
<text x=\"872\" y=\"763\" class=\"note-b\">sent: link 2, PDU 1, start, 2 octets</text>
<rect x=\"104\" y=\"772\" width=\"1068\" height=\"24\" class=\"event\"></rect>
<text x=\"872\" y=\"787\" class=\"note-b\">sent: link 2, PDU 2, continuation, 1 octets</text>
<rect x=\"104\" y=\"796\" width=\"1068\" height=\"24\" class=\"event\"></rect>
<text x=\"872\" y=\"811\" class=\"note-b\">sent: link 2, PDU 3, reserved, 0 octets</text>
";

#[test]
fn control_pdus_have_their_names(rt: HostRuntime) -> Result<(), AllocError> {
    check(&rt, rt.alloc(), TEXT, 31, ROWS)
}
