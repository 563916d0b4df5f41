//! The header of a data channel PDU (Core 5.2, volume 6 part B, section 2.4).
ghost use Rattle.std.specs.Prelude.{◌≡◌, ◌<◌, ◌%◌, [], ◌∷◌, slice_index};
ghost use Rattle.data_pdu.specs.Header.{octets_of, header_in, counts_as_empty};

use ble_base::has_bit;

/// The header of a data channel PDU (Core 5.2, volume 6 part B, section 2.4).
#[derive(Clone, Copy, Debug, PartialEq, Eq, Default)]
pub struct DataHeader {
    /// LLID, two bits: 1 is a continuation or an empty PDU, 2 a start, 3 a control PDU.
    pub llid: u8,
    /// NESN, the next expected sequence number.
    pub nesn: bool,
    /// SN, the sequence number.
    pub sn: bool,
    /// MD, whether the sender has more data.
    pub md: bool,
    /// The number of octets after the header, 0 to 255, including the integrity code of a sealed
    /// payload.
    pub length: u8,
}

impl DataHeader {
    /// Whether the PDU of this header counts as empty: its LLID is 0 or it has no octet. Such a PDU
    /// is acknowledged and otherwise ignored (Core 5.2, volume 6 part B, section 2.4; that LLID 0,
    /// and LLID 2 or 3 without an octet, count as empty is our choice).
    pub fn counts_as_empty(&self) -> bool
        ensures { result ≡ counts_as_empty self.now }
    {
        self.llid == 0 || self.length == 0
    }
}

/// The header in these two octets, in the order in which they are transmitted (Core 5.2, volume 6
/// part B, section 2.4). Bits 5 to 7 of the first octet, which are reserved, are ignored:
/// `write_header` gives the same octets with these bits 0.
pub fn read_header(octets: [u8; 2]) -> DataHeader
    ensures header { result ≡ header_in octets }
    ensures two_bits { result.llid < 4 }
    ensures kept { octets_of result ≡ slice_index octets 0 % 32 ∷ slice_index octets 1 ∷ [] }
{
    let [first, length] = octets;
    let flags = u64::from(first);
    DataHeader {
        llid: first % 4,
        nesn: has_bit(flags, 2),
        sn: has_bit(flags, 3),
        md: has_bit(flags, 4),
        length,
    }
}

/// The two octets of this header, in the order in which they are transmitted: LLID in bits 0 and 1
/// of the first, NESN in bit 2, SN in bit 3, MD in bit 4, and then the length (Core 5.2, volume 6
/// part B, section 2.4). The reserved bits 5 to 7 are 0. `read_header` gives the header back.
pub fn write_header(header: DataHeader) -> [u8; 2]
    requires { header.llid < 4 }
    ensures octets { result ≡ octets_of header }
    ensures read { header_in result ≡ header }
{
    let flags = 4 * u8::from(header.nesn) + 8 * u8::from(header.sn) + 16 * u8::from(header.md);
    [header.llid + flags, header.length]
}
