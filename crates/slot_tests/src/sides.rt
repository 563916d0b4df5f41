//! One side: its links, its advertiser, its scanner or initiator, and what has its radio.
use crate::links::{Link, Timing};
use crate::words::put_words;
use std::alloc::AllocError;
use test_words::put_number;

/// The slots from one event of the advertiser to the next at least, and those of an event.
const ADVERTISING_INTERVAL: u32 = 16;

const ADVERTISING_SLOTS: u32 = 3;

/// The slots for which the event of a link holds the radio.
const LINK_SLOTS: u32 = 2;

/// The slots of a scan interval, and those of its window.
const SCAN_INTERVAL: u32 = 10;

const SCAN_WINDOW: u32 = 5;

/// The first advertising channel.
const FIRST_CHANNEL: u32 = 37;

/// What a side does in a slot.
#[derive(Clone, Copy)]
pub(crate) enum Doing {
    Nothing,
    Link { handle: usize },
    Advertises { channel: u32 },
    /// It scans or initiates.
    Listens { channel: u32 },
}

/// What wants a slot: its class, the slot in which it was served last, its handle, and what it does.
#[derive(Clone, Copy)]
struct Want {
    class: u32,
    last_served: u32,
    handle: usize,
    doing: Doing,
}

impl Want {
    /// Whether it goes before another: by class, then by the slot last served, then by handle.
    fn is_before(&self, other: &Want) -> bool {
        if self.class != other.class {
            self.class < other.class
        } else if self.last_served != other.last_served {
            self.last_served < other.last_served
        } else {
            self.handle < other.handle
        }
    }
}

/// The first of what wants a slot, and how many links want it.
#[derive(Clone, Copy)]
struct Wants {
    first: Option<Want>,
    links: u32,
}

impl Wants {
    fn add(&mut self, want: Want) {
        if want.class == 0 {
            self.links = self.links.saturating_add(1);
        }
        if self.is_first(&want) {
            self.first = Some(want);
        }
    }

    /// Whether one goes before all of these.
    fn is_first(&self, want: &Want) -> bool {
        match &self.first {
            None => true,
            Some(first) => want.is_before(first),
        }
    }
}

/// One side.
#[derive(Clone, Copy)]
pub(crate) struct Side {
    pub(crate) name: &'static str,
    links: [Link; 3],
    /// The slot from which the advertiser is due, if it is on.
    pub(crate) advertises: Option<u32>,
    /// The slots in which the scanner and the initiator began, if they are on, and the parameters
    /// of the link that is to be opened.
    pub(crate) scans: Option<u32>,
    pub(crate) initiates: Option<(u32, Timing)>,
    /// What holds the radio, in the slots from one to before another.
    holder: Doing,
    held_from: u32,
    held_to: u32,
    /// In how many slots more than one link wanted the radio.
    pub(crate) contests: u32,
}

impl Side {
    /// A side that does nothing.
    pub(crate) fn new(name: &'static str) -> Side {
        Side {
            name,
            links: [Link::none(); 3],
            advertises: None,
            scans: None,
            initiates: None,
            holder: Doing::Nothing,
            held_from: 0,
            held_to: 0,
            contests: 0,
        }
    }

    /// The link under a handle, or none.
    pub(crate) fn link(&self, handle: usize) -> Link {
        match self.links.get(handle) {
            Some(link) => *link,
            None => Link::none(),
        }
    }

    fn set_link(&mut self, handle: usize, link: Link) {
        if let Some(place) = self.links.get_mut(handle) {
            *place = link;
        }
    }

    /// How many links are open.
    pub(crate) fn open_links(&self) -> u32 {
        let mut count: u32 = 0;
        for handle in 0..3usize {
            if self.link(handle).is_open() {
                count = count.saturating_add(1);
            }
        }
        count
    }

    /// The host resets it: its links are shut, by ascending handle.
    pub(crate) fn reset(&mut self, told: &mut String) -> Result<(), AllocError> {
        for handle in 0..3usize {
            if self.link(handle).is_open() {
                self.shut(handle, "00", told)?;
            }
        }
        self.advertises = None;
        self.scans = None;
        self.initiates = None;
        self.release();
        Ok(())
    }

    /// The host turns advertising off.
    pub(crate) fn advertise_no_more(&mut self) {
        self.advertises = None;
        if let Doing::Advertises { .. } = self.holder {
            self.release();
        }
    }

    /// The radio is free.
    fn release(&mut self) {
        self.holder = Doing::Nothing;
        self.held_to = 0;
    }

    /// The link under a handle is shut. Where it holds the radio, that is free.
    fn shut(&mut self, handle: usize, reason: &str, told: &mut String) -> Result<(), AllocError> {
        let number = self.link(handle).number;
        self.set_link(handle, Link::none());
        match self.holder {
            Doing::Link { handle: holder } if holder == handle => self.release(),
            _ => {}
        }
        put_words(told, &["shut ", self.name])?;
        put_number(told, u64::from(number))?;
        put_words(told, &[" ", reason, "\n"])
    }

    /// A turn begins in a slot. It gives what is done in it.
    pub(crate) fn begin(
        &mut self,
        slot: u32,
        is_on: bool,
        told: &mut String,
    ) -> Result<Doing, AllocError> {
        self.end_links(slot, told)?;
        let mut wants = self.enter_links(slot, told)?;
        if wants.links > 1 {
            self.contests = self.contests.saturating_add(1);
        }
        self.add_others(slot, &mut wants);
        if !is_on {
            return Ok(Doing::Nothing);
        }
        if slot < self.held_to {
            return Ok(self.goes_on(slot));
        }
        Ok(match wants.first {
            None => Doing::Nothing,
            Some(first) => self.serve(slot, first.doing),
        })
    }

    /// The links end whose time has passed.
    fn end_links(&mut self, slot: u32, told: &mut String) -> Result<(), AllocError> {
        for handle in 0..3usize {
            if let Some(reason) = self.link(handle).ends_in(slot) {
                self.shut(handle, reason, told)?;
            }
        }
        Ok(())
    }

    /// The links enter the events whose anchors are in this slot, and want it.
    fn enter_links(&mut self, slot: u32, told: &mut String) -> Result<Wants, AllocError> {
        let mut wants = Wants {
            first: None,
            links: 0,
        };
        for handle in 0..3usize {
            let mut link = self.link(handle);
            if link.enters_in(slot) {
                let event = link.enter();
                self.set_link(handle, link);
                put_entered(told, self.name, link.number, event)?;
                add_link(&mut wants, handle, &link);
            }
        }
        Ok(wants)
    }

    /// The advertiser, the scanner and the initiator want the slot.
    fn add_others(&self, slot: u32, wants: &mut Wants) {
        if let Some(due) = self.advertises {
            if due <= slot {
                wants.add(other_want(
                    1,
                    Doing::Advertises {
                        channel: FIRST_CHANNEL,
                    },
                ));
            }
        }
        let since = match (self.scans, self.initiates) {
            (Some(since), _) | (None, Some((since, _))) => Some(since),
            (None, None) => None,
        };
        if let Some(since) = since {
            let slots = slot.saturating_sub(since);
            if slots % SCAN_INTERVAL < SCAN_WINDOW {
                let channel = FIRST_CHANNEL.saturating_add(slots / SCAN_INTERVAL % 3);
                wants.add(other_want(2, Doing::Listens { channel }));
            }
        }
    }

    /// What holds the radio goes on: an advertiser on its next channel. A link has no second
    /// exchange, since nothing waits to be sent on it.
    fn goes_on(&self, slot: u32) -> Doing {
        match self.holder {
            Doing::Advertises { channel } => Doing::Advertises {
                channel: channel.saturating_add(slot.saturating_sub(self.held_from)),
            },
            Doing::Nothing | Doing::Link { .. } | Doing::Listens { .. } => Doing::Nothing,
        }
    }

    /// What wins the slot has it.
    fn serve(&mut self, slot: u32, doing: Doing) -> Doing {
        match doing {
            Doing::Link { handle } => {
                let mut link = self.link(handle);
                link.last_served = slot;
                self.set_link(handle, link);
                self.hold(slot, LINK_SLOTS, doing);
            }
            Doing::Advertises { .. } => {
                self.advertises = Some(slot.saturating_add(ADVERTISING_INTERVAL));
                self.hold(slot, ADVERTISING_SLOTS, doing);
            }
            Doing::Nothing | Doing::Listens { .. } => {}
        }
        doing
    }

    fn hold(&mut self, slot: u32, slots: u32, holder: Doing) {
        self.holder = holder;
        self.held_from = slot;
        self.held_to = slot.saturating_add(slots);
    }

    /// The link under a handle hears a good packet in a slot.
    pub(crate) fn hear(&mut self, handle: usize, slot: u32) {
        let mut link = self.link(handle);
        link.hear(slot);
        self.set_link(handle, link);
    }

    /// A link is opened under the least free handle, and the initiator or the advertiser is off.
    pub(crate) fn open(&mut self, link: Link, told: &mut String) -> Result<(), AllocError> {
        let handle = self.free_handle();
        self.set_link(handle, link);
        let role = if link.is_central {
            self.initiates = None;
            "central"
        } else {
            self.advertise_no_more();
            "peripheral"
        };
        put_opened(told, self.name, (link.number, handle), role)
    }

    /// The least handle without a link, or 3.
    fn free_handle(&self) -> usize {
        for handle in 0..3usize {
            if !self.link(handle).is_open() {
                return handle;
            }
        }
        3
    }
}

/// Writes that a link is opened under a handle.
fn put_opened(
    told: &mut String,
    side: &str,
    (link, handle): (u32, usize),
    role: &str,
) -> Result<(), AllocError> {
    put_words(told, &["open ", side])?;
    put_number(told, u64::from(link))?;
    put_number(told, handle as u64)?;
    put_words(told, &[" ", role, "\n"])
}

/// Writes that a link enters an event.
fn put_entered(told: &mut String, side: &str, link: u32, event: u32) -> Result<(), AllocError> {
    put_words(told, &["enter ", side])?;
    put_number(told, u64::from(link))?;
    put_number(told, u64::from(event))?;
    told.push('\n')
}

/// A link that entered an event wants the slot, unless it skips the event.
fn add_link(wants: &mut Wants, handle: usize, link: &Link) {
    if link.wants() {
        wants.add(Want {
            class: 0,
            last_served: link.last_served,
            handle,
            doing: Doing::Link { handle },
        });
    }
}

/// What wants a slot and is not a link.
fn other_want(class: u32, doing: Doing) -> Want {
    Want {
        class,
        last_served: 0,
        handle: 0,
        doing,
    }
}
