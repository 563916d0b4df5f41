//! The open links of a controller, turn by turn.
ghost use Rattle.std.specs.Prelude.{◌≡◌, IfOk};

use crate::setups::address;
use ble_base::{Outbox, Role, SlotNo};
use open_links::{Entry, LinkEnded, LinkSetup, LinkStep, OpenLinks};
use procedures::Effect;
use slot_plan::{Activity, Plan};
use std::alloc::{AllocError, Global};
use std::marker::Model;
use test_words::{put_answer, put_notes, put_number, put_octets, put_verdict};

/// The open links of a controller with two buffers for its host and one for pieces from the air,
/// and the first slot in which they may take octets.
#[derive(Drop)]
pub(crate) struct Side {
    pub(crate) links: OpenLinks<3, 2, 1>,
    next: u64,
    heard: u16,
}

impl Model for Side {
    ghost use Rattle.std.specs.Prelude.{◌≤◌, ℕ};

    ghost Value = { ℕ };

    ghost view = { λ s. s.next };

    ghost invariant = { λ s. (s.links.heard_to ≤ s.next) × (s.links.unreported ≤ s.heard) };
}

/// No link is open.
fn no_links(alloc: Global) -> Result<OpenLinks<3, 2, 1>, AllocError>
    ensures { IfOk result (λ links. (links.heard_to ≡ 0) × (links.unreported ≡ 0)) }
{
    OpenLinks::new(alloc)
}

/// Writes the link that has the radio.
fn put_winner(told: &mut String, winner: Option<Activity>) -> Result<(), AllocError> {
    match winner {
        None => told.push_str(" nobody"),
        Some(Activity::Link(handle)) => put_number(told, u64::from(handle)),
        Some(_) => told.push_str(" another"),
    }
}

/// Writes for each event that was entered whether it brought an update of the parameters.
fn put_entries(told: &mut String, entries: &[Option<Entry>]) -> Result<(), AllocError> {
    for entry in entries {
        if let Some(Entry { updated: true, .. }) = entry {
            told.push_str(" updated")?;
        }
    }
    Ok(())
}

/// Writes whether a link answers a packet, and the intervals that its peer requests by it.
fn put_step(told: &mut String, step: Option<LinkStep>) -> Result<(), AllocError> {
    let Some(step) = step else {
        return told.push_str(" none");
    };
    put_answer(told, step.reply)?;
    put_effect(told, step.effect)
}

/// Writes the intervals that the peer requests.
fn put_effect(told: &mut String, effect: Effect) -> Result<(), AllocError> {
    let Effect::AskHost { min, max, .. } = effect else {
        return Ok(());
    };
    told.push_str(" requests")?;
    put_numbers(told, &[u64::from(min), u64::from(max)])
}

/// Writes numbers, each as a further word.
pub(crate) fn put_numbers(told: &mut String, numbers: &[u64]) -> Result<(), AllocError> {
    for number in numbers {
        put_number(told, *number)?;
    }
    Ok(())
}

/// Writes the handles and the reasons of links that ended.
fn put_ended(told: &mut String, ended: &[LinkEnded]) -> Result<(), AllocError> {
    for link in ended {
        let LinkEnded { handle, reason } = *link;
        put_number(told, u64::from(handle))?;
        put_octets(told, &[reason.0])?;
    }
    Ok(())
}

impl Side {
    /// No link is open.
    pub(crate) fn start(alloc: Global) -> Result<Self, AllocError> {
        let links = no_links(alloc)?;
        Ok(Side {
            links,
            next: 0,
            heard: 0,
        })
    }

    /// Opens a link from a CONNECT_IND in this slot, if the setup is one.
    pub(crate) fn open(&mut self, setup: LinkSetup, slot: u32) -> Result<(), AllocError> {
        let fields = setup.fields;
        if !fields.is_in_range() || fields.crc_init >= 1 << 24 || setup.handle >= 3 {
            return Ok(());
        }
        if (27..=251).contains(&setup.max_rx) {
            self.links.open(setup, SlotNo(u64::from(slot)));
        }
        Ok(())
    }

    /// The links enter their events, by ascending handle: the link that has the radio in this slot,
    /// what is noted, and whether parameters are updated.
    pub(crate) fn enter(&mut self, slot: u32, told: &mut String) -> Result<(), AllocError> {
        let slot = SlotNo(u64::from(slot));
        let (mut plan, mut out) = (Plan::new(), Outbox::new());
        let first = self.links.enter(0, slot, &mut plan, &mut out);
        let second = self.links.enter(1, slot, &mut plan, &mut out);
        let third = self.links.enter(2, slot, &mut plan, &mut out);
        put_winner(told, plan.winner(slot))?;
        put_notes(told, &out)?;
        put_entries(told, &[first, second, third])
    }

    /// Link 0 enters this number of events, from slot 2 on: the channel of each.
    pub(crate) fn channels(&mut self, count: u16, told: &mut String) -> Result<(), AllocError> {
        for event in 0..count {
            let slot = SlotNo(2 + 24 * u64::from(event));
            self.links
                .enter(0, slot, &mut Plan::new(), &mut Outbox::new());
            put_number(told, u64::from(self.links.channel(0).unwrap_or(u8::MAX)))?;
        }
        Ok(())
    }

    /// A link fixes what it sends next, if it has this role. The turn of a central begins as it
    /// sends, and that of a peripheral as it hears.
    fn begin_turn(&mut self, handle: u16, role: Role) {
        match self.links.setup(handle) {
            Some(setup) if setup.role == role => self.links.ready(handle),
            _ => {}
        }
    }

    /// Puts the packet of a link on the air: how many octets it has, and what is noted.
    pub(crate) fn send(
        &mut self,
        handle: u16,
        slot: u32,
        air: &mut Vec<u8>,
        told: &mut String,
    ) -> Result<(), AllocError> {
        let mut out = Outbox::new();
        self.begin_turn(handle, Role::Central);
        let packet = self
            .links
            .to_send(handle, SlotNo(u64::from(slot)), &mut out);
        let Some(packet) = packet else {
            return told.push_str(" none");
        };
        air.clear();
        air.extend_from_slice(packet.as_slice())?;
        put_number(told, packet.len() as u64)?;
        put_notes(told, &out)
    }

    /// A link receives a packet: whether it answers, what is requested, and what is noted.
    pub(crate) fn hear(
        &mut self,
        handle: u16,
        slot: u32,
        packet: &[u8],
        told: &mut String,
    ) -> Result<(), AllocError> {
        self.begin_turn(handle, Role::Peripheral);
        let slot = u64::from(slot);
        if slot < self.next || self.heard >= 1000 {
            return told.push_str(" too early");
        }
        let mut out = Outbox::new();
        let step = self.links.heard(handle, packet, SlotNo(slot), &mut out);
        self.next = slot + 1;
        self.heard += 1;
        put_step(told, step)?;
        put_notes(told, &out)
    }

    /// The verdict of a link on a packet.
    pub(crate) fn judge(
        &self,
        handle: u16,
        packet: &[u8],
        told: &mut String,
    ) -> Result<(), AllocError> {
        match self.links.judge(handle, packet) {
            None => told.push_str(" none"),
            Some(verdict) => put_verdict(told, verdict),
        }
    }

    /// The handles of all links, which end.
    pub(crate) fn shut_all(&mut self, told: &mut String) -> Result<(), AllocError> {
        for handle in self.links.shut_all().as_slice() {
            put_number(told, u64::from(*handle))?;
        }
        Ok(())
    }

    /// The links that end as a turn in this slot begins.
    pub(crate) fn shut_due(&mut self, slot: u32, told: &mut String) -> Result<(), AllocError> {
        let ended = self.links.shut_due(SlotNo(u64::from(slot)));
        put_ended(told, ended.as_slice())
    }

    /// The links that end as a turn ends. That some do is known before.
    pub(crate) fn shut_ended(&mut self, told: &mut String) -> Result<(), AllocError> {
        let some_end = self.links.has_ending();
        let ended = self.links.shut_ended();
        if some_end == ended.as_slice().is_empty() {
            told.push_str(" not known")?;
        }
        put_ended(told, ended.as_slice())
    }

    /// The handle of the next link.
    pub(crate) fn free_handle(&self, told: &mut String) -> Result<(), AllocError> {
        match self.links.free_handle() {
            None => told.push_str(" none"),
            Some(handle) => put_number(told, u64::from(handle)),
        }
    }

    /// Whether there is a link between two addresses.
    pub(crate) fn is_between(
        &self,
        own: u8,
        peer: u8,
        told: &mut String,
    ) -> Result<(), AllocError> {
        let (own, peer) = (address(own), address(peer));
        put_answer(told, self.links.has_link_between(&own, &peer))
    }

    /// The channel, the interval and the timeout of a link, the slots of an event, and whether it
    /// has a second exchange.
    pub(crate) fn shape(&self, handle: u16, told: &mut String) -> Result<(), AllocError> {
        let links = &self.links;
        let (Some(channel), Some(params)) = (links.channel(handle), links.params(handle)) else {
            return told.push_str(" none");
        };
        let (interval, timeout) = (u64::from(params.interval), u64::from(params.timeout));
        let span = u64::from(links.span(handle).unwrap_or(0));
        put_numbers(told, &[u64::from(channel), interval, timeout, span])?;
        put_answer(told, links.again(handle).unwrap_or(false))
    }
}
