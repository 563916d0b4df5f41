//! Two sides and the air between them.
use crate::links::{Link, Timing};
use crate::sides::{Doing, Side};
use crate::words::put_air;
use std::alloc::AllocError;

/// What is added to the number of an access address of B that A does not have (our choice).
const OF_B: u32 = 1000;

/// Both sides.
#[derive(Drop)]
pub(crate) struct Pair {
    pub(crate) a: Side,
    pub(crate) b: Side,
    /// How many links began of which A is the central, and of which B is.
    begun_by_a: u32,
    begun_by_b: u32,
    /// Whether the links of A and of B have the same access addresses, in order.
    shares_addresses: bool,
    /// The access addresses that were on the air, in the order of their first packets.
    seen: Vec<u32>,
}

/// What both sides do in a turn, and what becomes of its packets.
#[derive(Clone, Copy)]
struct Turn {
    slot: u32,
    doing_a: Doing,
    doing_b: Doing,
    /// Whether the first, the second and the third packet is lost.
    losses: [bool; 3],
    packets: usize,
}

impl Turn {
    /// What a side does.
    fn doing(&self, is_a: bool) -> Doing {
        if is_a { self.doing_a } else { self.doing_b }
    }

    /// Whether the next packet is lost.
    fn next_is_lost(&mut self) -> bool {
        let place = self.packets;
        self.packets = place.saturating_add(1);
        self.losses.get(place).copied() == Some(true)
    }
}

/// A packet of a link with this number and access address, or of the advertising channels where both
/// are 0.
#[derive(Clone, Copy)]
struct Packet {
    link: u32,
    address: u32,
    channel: u32,
}

impl Pair {
    /// Two sides that do nothing, before the first link.
    pub(crate) fn new(shares_addresses: bool, seen: Vec<u32>) -> Pair {
        Pair {
            a: Side::new("a"),
            b: Side::new("b"),
            begun_by_a: 0,
            begun_by_b: 0,
            shares_addresses,
            seen,
        }
    }

    /// A side.
    pub(crate) fn side(&mut self, is_a: bool) -> &mut Side {
        if is_a { &mut self.a } else { &mut self.b }
    }

    /// A turn after the hosts were heard, with the radios of A and B on or off.
    pub(crate) fn turn(
        &mut self,
        slot: u32,
        (a_on, b_on): (bool, bool),
        losses: [bool; 3],
        told: &mut String,
    ) -> Result<(), AllocError> {
        let mut turn = Turn {
            slot,
            doing_a: self.a.begin(slot, a_on, told)?,
            doing_b: self.b.begin(slot, b_on, told)?,
            losses,
            packets: 0,
        };
        let at_b = self.begin_exchange(true, &mut turn, told)?;
        let at_a = self.begin_exchange(false, &mut turn, told)?;
        if at_b {
            self.answer(false, &mut turn, told)
        } else if at_a {
            self.answer(true, &mut turn, told)
        } else {
            Ok(())
        }
    }

    /// The first phase of one side: a central or an advertiser sends. It gives whether the other side
    /// hears that.
    fn begin_exchange(
        &mut self,
        is_a: bool,
        turn: &mut Turn,
        told: &mut String,
    ) -> Result<bool, AllocError> {
        let doing = turn.doing(is_a);
        let listening = turn.doing(!is_a);
        let Some(packet) = packet_of(self.side(is_a), doing) else {
            return Ok(false);
        };
        let is_lost = turn.next_is_lost();
        let is_good = !is_lost && listens(self.side(!is_a), listening, packet);
        self.put_packet(is_a, packet.address, is_good, told)?;
        Ok(is_good)
    }

    /// The second phase of a side that heard the first packet: a peripheral replies, and an initiator
    /// sends its CONNECT_IND.
    fn answer(&mut self, is_a: bool, turn: &mut Turn, told: &mut String) -> Result<(), AllocError> {
        match (turn.doing(is_a), turn.doing(!is_a)) {
            (Doing::Link { handle }, Doing::Link { handle: of_central }) => {
                let address = self.side(is_a).link(handle).address;
                self.side(is_a).hear(handle, turn.slot);
                let is_good = !turn.next_is_lost();
                if is_good {
                    self.side(!is_a).hear(of_central, turn.slot);
                }
                self.put_packet(is_a, address, is_good, told)
            }
            _ => match self.side(is_a).initiates {
                None => Ok(()),
                Some((_, timing)) => self.connect(is_a, timing, turn, told),
            },
        }
    }

    /// A side sends the CONNECT_IND of a link. The other side opens its end where that is not lost.
    fn connect(
        &mut self,
        is_a: bool,
        timing: Timing,
        turn: &mut Turn,
        told: &mut String,
    ) -> Result<(), AllocError> {
        let is_good = !turn.next_is_lost();
        self.put_packet(is_a, 0, is_good, told)?;
        let central = self.begin_link(is_a, timing, turn.slot);
        let (of_a, of_b) = if is_a {
            (central, central.peripheral())
        } else {
            (central.peripheral(), central)
        };
        if is_a || is_good {
            self.a.open(of_a, told)?;
        }
        if !is_a || is_good {
            self.b.open(of_b, told)?;
        }
        Ok(())
    }

    /// The central of the next link, which has the next access address of its side.
    fn begin_link(&mut self, is_a: bool, timing: Timing, slot: u32) -> Link {
        if is_a {
            self.begun_by_a = self.begun_by_a.saturating_add(1);
        } else {
            self.begun_by_b = self.begun_by_b.saturating_add(1);
        }
        let number = self.begun_by_a.saturating_add(self.begun_by_b);
        let address = if is_a {
            self.begun_by_a
        } else if self.shares_addresses {
            self.begun_by_b
        } else {
            self.begun_by_b.saturating_add(OF_B)
        };
        Link::central(number, address, timing, slot)
    }

    /// Writes that a packet of a side is on the air.
    fn put_packet(
        &mut self,
        is_a: bool,
        address: u32,
        is_good: bool,
        told: &mut String,
    ) -> Result<(), AllocError> {
        let place = self.place_of(address)?;
        let name = self.side(is_a).name;
        let verdict = if is_good { "good" } else { "missed" };
        put_air(told, name, place, verdict)
    }

    /// The place of an access address among those that were on the air, from 1; 0 for that of the
    /// advertising channels.
    fn place_of(&mut self, address: u32) -> Result<usize, AllocError> {
        if address == 0 {
            return Ok(0);
        }
        let mut place: usize = 0;
        for other in self.seen.as_slice() {
            place = place.saturating_add(1);
            if *other == address {
                return Ok(place);
            }
        }
        self.seen.push(address)?;
        Ok(place.saturating_add(1))
    }
}

/// What a side sends in the first phase, if it sends.
fn packet_of(side: &Side, doing: Doing) -> Option<Packet> {
    match doing {
        Doing::Link { handle } => {
            let link = side.link(handle);
            if link.is_central {
                Some(Packet {
                    link: link.number,
                    address: link.address,
                    channel: 0,
                })
            } else {
                None
            }
        }
        Doing::Advertises { channel } => Some(Packet {
            link: 0,
            address: 0,
            channel,
        }),
        Doing::Nothing | Doing::Listens { .. } => None,
    }
}

/// Whether a side listens to a packet.
fn listens(side: &Side, doing: Doing, packet: Packet) -> bool {
    match doing {
        Doing::Link { handle } => {
            let link = side.link(handle);
            !link.is_central && packet.link != 0 && link.number == packet.link
        }
        Doing::Listens { channel } => packet.link == 0 && packet.channel == channel,
        Doing::Nothing | Doing::Advertises { .. } => false,
    }
}
