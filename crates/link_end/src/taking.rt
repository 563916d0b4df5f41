//! What an end does with a control PDU of the peer that it takes.
ghost use Rattle.std.specs.Prelude.{◌≡◌, ◌≤◌, ◌&&◌, true, false};
ghost use Rattle.control_end.specs.Answers.{nothing_taken};
ghost use Rattle.link_model.specs.Receiving.{HasPayloadLengths};
ghost use Rattle.link_model.specs.phased_end.Taking.{nothing_keyed};
ghost use Rattle.link_model.specs.unencrypted_ends.Unencrypted.{is_enc_req};
ghost use Rattle.link_model.specs.Receiving.{code_of, leaving_by};
ghost use Rattle.link_model.specs.Receiving.{lengths_reported};
ghost use Rattle.link_model.specs.Receiving.{kept_answered, peer_answered, peer_from, peer_from_if};
ghost use Rattle.link_end.specs.Pdus.{pdu_in};
ghost use Rattle.link_end.specs.Receiving.{IsSingle, draws_if, given_if, held_data_if};
ghost use Rattle.link_end.specs.Receiving.{held_given_if, lengths_seen_from, may_answer};
ghost use Rattle.link_model.specs.phased_end.Moves.{lasts};

use crate::controls::{take, take_data};
use crate::ends::LinkEnd;
use crate::hosts::lengths_seen;
use crate::pdus::Got;
use ble_base::{ErrCode, Role};
use control_end::Taken;
use data_pdu::{Ctrl, CtrlRead};
use enc_phase::Transition;
use link_model::{KnownLengths, Leaving, PeerFacts, PeerVersion, PhasedEnd, TakenKeyed};
use procedures::Effect;

/// What comes of a control PDU of the peer.
#[derive(Clone, Copy)]
pub(crate) struct Given {
    /// What the procedures give for it, and for one that was kept until then.
    pub(crate) given: TakenKeyed,
    /// A peripheral draws what it answers it with.
    pub(crate) draws: bool,
}

/// What is known of the peer after a control PDU of it was read.
fn peer_from(read: &CtrlRead, peer: PeerFacts) -> PeerFacts
    ensures { result ≡ peer_from read.now peer }
{
    match *read {
        CtrlRead::Known(
            Ctrl::FeatureReq { features }
            | Ctrl::FeatureRsp { features }
            | Ctrl::PeripheralFeatureReq { features },
        ) => PeerFacts {
            features: Some(features),
            ..peer
        },
        CtrlRead::Known(
            Ctrl::VersionInd {
                version,
                company,
                sub,
            },
        ) => PeerFacts {
            version: Some(PeerVersion {
                version,
                company,
                sub,
            }),
            ..peer
        },
        _ => peer,
    }
}

/// The same, unless the link ended by it.
fn peer_from_if(goes_on: bool, read: &CtrlRead, peer: PeerFacts) -> PeerFacts
    ensures { result ≡ peer_from_if goes_on read.now peer }
{
    if goes_on { peer_from(read, peer) } else { peer }
}

/// What was kept before and is not any more: it was answered.
fn kept_answered(before: Option<Ctrl>, after: Option<Ctrl>) -> CtrlRead
    ensures { result ≡ kept_answered before after }
{
    match (before, after) {
        (Some(ctrl), None) => CtrlRead::Known(ctrl),
        _ => CtrlRead::Bare,
    }
}

/// What is known of the lengths after this effect.
fn lengths_reported(effect: &Effect, lengths: KnownLengths) -> KnownLengths
    ensures { result ≡ lengths_reported effect.now lengths }
{
    match *effect {
        Effect::Lengths { rx, tx } => KnownLengths {
            reported_rx: rx,
            reported_tx: tx,
            ..lengths
        },
        _ => lengths,
    }
}

/// The reason for which the peer ends the link.
fn code_of(effect: &Effect) -> Option<ErrCode>
    ensures { result ≡ code_of effect.now }
{
    match *effect {
        Effect::PeerEnds(code) => Some(code),
        _ => None,
    }
}

/// How the link is to end where the peer ends it for this reason.
fn leaving_by(code: Option<ErrCode>, leaving: Leaving) -> Leaving
    ensures { result ≡ leaving_by code leaving }
{
    match code {
        Some(code) => Leaving {
            ended_by_peer: Some(code),
            ..leaving
        },
        None => leaving,
    }
}

/// The procedures give nothing.
fn nothing_taken() -> Taken
    ensures { result ≡ nothing_taken }
{
    Taken {
        effect: Effect::Nothing,
        refused: None,
        done: None,
    }
}

/// Nothing is taken.
pub(crate) fn nothing_given() -> Given
    ensures given { result.given ≡ nothing_keyed }
    ensures draws { result.draws ≡ false }
    ensures single { IsSingle result.given.taken }
{
    Given {
        given: TakenKeyed {
            taken: nothing_taken(),
            kept: nothing_taken(),
        },
        draws: false,
    }
}

/// Whether this is LL_ENC_REQ.
fn is_enc_req(read: &CtrlRead) -> bool
    ensures { result ≡ is_enc_req read.now }
{
    matches!(read, CtrlRead::Known(Ctrl::EncReq { .. }))
}

/// Whether an end with this role would answer LL_ENC_REQ.
fn may_answer(role: Role, control: &PhasedEnd) -> bool
    ensures { result ≡ may_answer role control.now }
{
    match role {
        Role::Central => false,
        Role::Peripheral => { control.facts().may_follow(Transition::Ask) && !control.is_closing() }
    }
}

/// What is known of the lengths after what the procedures gave.
fn lengths_given(given: &TakenKeyed, lengths: KnownLengths) -> KnownLengths
    ensures { result
        ≡ lengths_reported given.now.kept.effect (lengths_reported given.now.taken.effect lengths) }
{
    lengths_reported(
        &given.kept.effect,
        lengths_reported(&given.taken.effect, lengths),
    )
}

impl LinkEnd {
    /// Its procedures take a control PDU of the peer in this slot.
    #[inline(never)]
    fn give(&mut self, got: &Got, slot: u64) -> Given
        requires entered { 1 ≤ self.old.control.control.track.entered }
        ensures held { self.new ≡ held_given_if true (pdu_in got.now) slot self.old }
        ensures given { result.given ≡ given_if true (pdu_in got.now) slot self.old }
        ensures draws { result.draws ≡ draws_if true (pdu_in got.now) slot self.old }
        ensures payloads { HasPayloadLengths result.given.taken.effect }
        ensures kept_payloads { HasPayloadLengths result.given.kept.effect }
        ensures single { IsSingle result.given.taken }
        ensures entered { 1 ≤ self.new.control.control.track.entered }
    {
        let read = got.read();
        let before = self.control.lengths();
        let sees = self.control.would_see(&read);
        let answers = self.answers(&read, sees);
        let kept = self.control.kept();
        let given = take(&mut self.control, &read, slot, self.response);
        let last = self.control.kept();
        let answered = kept_answered(kept, last);
        self.know_peer(sees, &read, &answered);
        self.know(before, &given);
        Given {
            given,
            draws: self.draws(answers),
        }
    }

    /// Whether it would answer this PDU with LL_ENC_RSP, where its procedures see it.
    fn answers(&self, read: &CtrlRead, sees: bool) -> bool
        ensures { result ≡ (is_enc_req read.now
            && (may_answer self.now.setup.link.role self.now.control && sees)) }
    {
        is_enc_req(read) && (may_answer(self.setup.role, &self.control) && sees)
    }

    /// Whether it draws what it answers with: it has not ended the link.
    fn draws(&self, answers: bool) -> bool
        ensures { result ≡ (answers && lasts self.now.control) }
    {
        answers && self.control.ends().is_none()
    }

    /// What it knows of the peer then, by what was taken, if the procedures see it, and by what was
    /// kept until then and is answered.
    fn know_peer(&mut self, sees: bool, read: &CtrlRead, kept: &CtrlRead)
        ensures { self.new ≡ record self.old {
          peer = peer_answered (lasts self.old.control) sees read.now kept.now self.old.peer;
        } }
    {
        let goes_on = self.control.ends().is_none();
        let peer = peer_from_if(goes_on && sees, read, self.peer);
        self.peer = peer_from_if(goes_on, kept, peer);
    }

    /// What it knows then of its lengths, and of how the link is to end: `before` are the lengths
    /// before.
    fn know(&mut self, before: (u16, u16), given: &TakenKeyed)
        ensures { self.new ≡ record self.old {
          lengths = lengths_reported given.now.kept.effect
              (lengths_reported given.now.taken.effect (lengths_seen_from before
              self.old.control.control.table.lengths self.old.lengths));
          leaving = leaving_by (code_of given.now.taken.effect) self.old.leaving;
        } }
    {
        let seen = lengths_seen(before, self.control.lengths(), self.lengths);
        self.lengths = lengths_given(given, seen);
        self.leaving = leaving_by(code_of(&given.taken.effect), self.leaving);
    }

    /// They take it, or do not.
    pub(crate) fn give_if(&mut self, takes: bool, got: &Got, slot: u64) -> Given
        requires entered { 1 ≤ self.old.control.control.track.entered }
        ensures held { self.new ≡ held_given_if takes (pdu_in got.now) slot self.old }
        ensures given { result.given ≡ given_if takes (pdu_in got.now) slot self.old }
        ensures draws { result.draws ≡ draws_if takes (pdu_in got.now) slot self.old }
        ensures payloads { HasPayloadLengths result.given.taken.effect }
        ensures kept_payloads { HasPayloadLengths result.given.kept.effect }
        ensures single { IsSingle result.given.taken }
        ensures entered { 1 ≤ self.new.control.control.track.entered }
    {
        if takes {
            self.give(got, slot)
        } else {
            nothing_given()
        }
    }

    /// Data is taken, or is not.
    pub(crate) fn take_data_if(&mut self, takes: bool)
        ensures held { self.new ≡ held_data_if takes self.old }
        ensures entered { 1 ≤ self.old.control.control.track.entered
            → 1 ≤ self.new.control.control.track.entered }
    {
        if takes {
            take_data(&mut self.control);
        }
    }
}
