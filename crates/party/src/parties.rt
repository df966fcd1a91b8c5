ghost use Rattle.std.specs.Prelude.{◌≡◌, ◌+◌, ◌≤◌, ◌<◌, ◌^◌, ◌++◌, ◌&&◌, ℕ, true, false, List, [], Some, IfOk, IfSome, if◌then◌else◌, drop, length, max, set, slice_get, slice_index, take};
ghost use Rattle.std.specs.Bool.{OnTrue};
ghost use Rattle.byte_queue.specs.Ring.{spare};
ghost use Rattle.share_core.specs.declared.instr.Instr.{Instr};
ghost use Rattle.share_core.specs.Instructions.{frame_for, has_frame};
ghost use Rattle.share_core.specs.Machine.{payload, rule};
ghost use Rattle.share_core.specs.Roles.{other};
ghost use Rattle.party.specs.Steps.{Comes, after_send, awaited, begun, at_instr, awaited_at, count_openings, ended, frame_bytes, is_opening, level_gates, most_gates, openings_after, plan_of, turned, view_at, wanted};

use crate::answers::Turn;
use crate::halves::{
    both_receive, both_send, is_level, offset_after, other_half, own_half, own_length, wanted,
};
use crate::levels::gates_of;
use crate::local::local;
use crate::operands::other;
use byte_queue::Queue;
use hy_bits::{Inputs, Memory, Role};
use share_core::{HEAD, Halves, Instr, InstrKind, Label, Offset};
use std::alloc::Global;
use std::marker::Model;

/// One of the two parties on its way through a plan. It never takes memory after `new`.
#[derive(Drop)]
pub struct Party {
    role: Role,
    place: usize,
    receiving: bool,
    slots: Vec<Label>,
    offset: Offset,
    chosen: u64,
    own: Vec<u64>,
    words: Vec<u64>,
    openings: usize,
    /// Room for the shares of one level, which are all made before any is put into its slot.
    shares: Vec<Label>,
}

impl Model for Party {
    ghost use Rattle.std.specs.Prelude.{◌≤◌, length};
    ghost use Rattle.party.specs.Steps.{State};

    ghost Value = { State };

    ghost view = { λ p. record {
      role = p.role;
      place = p.place;
      receiving = p.receiving;
      slots = p.slots.items;
      offset = p.offset;
      chosen = p.chosen;
      own = p.own.items;
      words = p.words.items;
      openings = p.openings;
      room = length p.shares.items;
    } };

    ghost invariant = { λ p. p.openings ≤ p.place };
}

impl Party {
    /// The party `role` at the begin of a plan of `instrs` and `gates`, with room for `shares` shares. `own` has the words of its own
    /// inputs, in order. It takes time linear in all of these.
    ///
    /// # Errors
    ///
    /// Memory ran out.
    pub fn new(
        alloc: Global,
        role: Role,
        instrs: &[Instr],
        gates: &[Instr],
        shares: u32,
        own: &Inputs,
    ) -> Result<Party, Memory>
        ensures { IfOk result (λ party. party ≡ begun role instrs.now gates.now shares own.now) }
    {
        let slots = vec![in alloc; Label::ZERO; shares as usize]?;
        let words = vec![in alloc; 0; count_openings(instrs)]?;
        let room = vec![in alloc; Label::ZERO; most_gates(instrs, gates)]?;
        let own = Vec::from_slice(alloc, own.words())?;
        Ok(Party {
            role,
            place: 0,
            receiving: false,
            slots,
            offset: Offset::NONE,
            chosen: 0,
            own,
            words,
            openings: 0,
            shares: room,
        })
    }

    /// One turn: the party's next half of an instruction of the plan, from the dealt halves `halves`. A level is one half. It answers
    /// `Waits` exactly at a receive half with an empty inbox, and `Done` exactly after the last instruction.
    ///
    /// The plan is the one that the party was made for, so that there is room for the shares of its levels. The frame that the party
    /// waits for stands whole in the inbox where the inbox is not empty, and the outbox has room for the frame that it sends. What the
    /// shares mean is the plan's promise: where a slot, a place or a word of an input doesn't stand, zeros are read, and what has no slot is
    /// dropped.
    ///
    /// It takes time linear in the gates of a level, and else constant time. It takes no memory.
    pub fn turn<H: Halves>(
        &mut self,
        instrs: &[Instr],
        gates: &[Instr],
        codes: &[u32],
        halves: &H,
        inbox: &mut Queue,
        outbox: &mut Queue,
    ) -> Turn
        requires plan { IfSome (slice_get instrs.now self.old.place) (λ instr. level_gates gates.now instr ≤ self.old.room) }
        requires frame { Comes inbox.old.items (awaited instrs.now gates.now self.old) }
        requires room { let plan = plan_of instrs.now gates.now codes.now in
            length (turned plan (λ k. (H.meant halves.now self.old.role k).words) self.old inbox.old.items).sent ≤ spare outbox.old }
        ensures state { let plan = plan_of instrs.now gates.now codes.now in
            self.new ≡ (turned plan (λ k. (H.meant halves.now self.old.role k).words) self.old inbox.old.items).state }
        ensures sent { let plan = plan_of instrs.now gates.now codes.now in
            outbox.new.items ≡ outbox.old.items ++ (turned plan (λ k. (H.meant halves.now self.old.role k).words) self.old inbox.old.items).sent }
        ensures taken { let plan = plan_of instrs.now gates.now codes.now in
            inbox.new.items ≡ drop (turned plan (λ k. (H.meant halves.now self.old.role k).words) self.old inbox.old.items).taken inbox.old.items }
        ensures rooms { (inbox.new.room ≡ inbox.old.room) × (outbox.new.room ≡ outbox.old.room) }
        ensures answer { let plan = plan_of instrs.now gates.now codes.now in
            result ≡ (turned plan (λ k. (H.meant halves.now self.old.role k).words) self.old inbox.old.items).answer }
    {
        match instr_at(instrs, self.place) {
            Some(instr) => self.step(&instr, gates, codes, halves, inbox, outbox),
            None => Turn::Done,
        }
    }

    /// The code and the length of the payload of the frame that the party waits for; None exactly where its next half is no receive
    /// half. It takes time linear in the gates of a level, and else constant time.
    pub fn expects(&self, instrs: &[Instr], gates: &[Instr]) -> Option<(u8, u32)>
        requires short { IfSome (awaited instrs.now gates.now self.now) (λ frame. frame.1 < 2 ^ 32) }
        ensures { result ≡ awaited instrs.now gates.now self.now }
    {
        match instr_at(instrs, self.place) {
            Some(instr) => self.waits_for(&instr, gates),
            None => None,
        }
    }

    /// What `expects` tells at an instruction.
    fn waits_for(&self, instr: &Instr, gates: &[Instr]) -> Option<(u8, u32)>
        requires short { IfSome (awaited_at gates.now self.now (Some instr.now)) (λ frame. frame.1 < 2 ^ 32) }
        ensures { result ≡ awaited_at gates.now self.now (Some instr.now) }
    {
        if both(self.receiving, instr.kind.has_frame(other(self.role))) {
            let size = wanted(self.role, instr, gates);
            Some((instr.kind.frame_code(), size as u32))
        } else {
            None
        }
    }

    /// The number of openings that the party has ended.
    pub fn openings(&self) -> usize
        ensures { result ≡ self.now.openings }
    {
        self.openings
    }

    /// The word that the opening `k` of the plan, counted from 0, gave. The party has ended that opening.
    pub fn opened(&self, k: u32) -> u64
        requires { k < self.now.openings }
        ensures { result ≡ slice_index self.now.words k }
    {
        word_in(self.words.as_slice(), u64::from(k))
    }

    /// Whether the conditions of `turn` hold of these lists and queues. It takes time linear in the gates of a level, and else constant
    /// time.
    pub fn is_ready(&self, instrs: &[Instr], gates: &[Instr], inbox: &Queue, outbox: &Queue) -> bool
        ensures plan { OnTrue result (IfSome (slice_get instrs.now self.now.place) (λ instr. level_gates gates.now instr ≤ self.now.room)) }
        ensures frame { OnTrue result (Comes inbox.now.items (awaited instrs.now gates.now self.now)) }
        ensures room { OnTrue result ((codes : List ℕ) (half : ℕ → List ℕ) →
            length (turned (plan_of instrs.now gates.now codes) half self.now inbox.now.items).sent ≤ spare outbox.now) }
    {
        match instr_at(instrs, self.place) {
            Some(instr) => self.is_ready_at(&instr, gates, inbox, outbox),
            None => true,
        }
    }

    /// Whether they hold at an instruction.
    fn is_ready_at(&self, instr: &Instr, gates: &[Instr], inbox: &Queue, outbox: &Queue) -> bool
        ensures plan { OnTrue result (level_gates gates.now instr.now ≤ self.now.room) }
        ensures frame { OnTrue result (Comes inbox.now.items (awaited_at gates.now self.now (Some instr.now))) }
        ensures room { OnTrue result ((codes : List ℕ) (half : ℕ → List ℕ) →
            length (at_instr (plan_of [] gates.now codes) half self.now inbox.now.items (Some instr.now)).sent ≤ spare outbox.now) }
    {
        if level_gates(instr, gates) > self.shares.len() {
            return false;
        }
        if both(self.receiving, instr.kind.has_frame(other(self.role))) {
            return stands(inbox, wanted(self.role, instr, gates));
        }
        if !instr.kind.has_frame(self.role) {
            return true;
        }
        if own_length(self.role, instr, gates) + HEAD > outbox.spare() {
            return false;
        }
        true
    }

    /// The party's next half of the instruction at which it stands.
    fn step<H: Halves>(
        &mut self,
        instr: &Instr,
        gates: &[Instr],
        codes: &[u32],
        halves: &H,
        inbox: &mut Queue,
        outbox: &mut Queue,
    ) -> Turn
        requires made { level_gates gates.now instr.now ≤ self.old.room }
        requires place { self.old.place < 2 ^ 62 }
        requires frame { Comes inbox.old.items (awaited_at gates.now self.old (Some instr.now)) }
        requires room { let plan = plan_of [] gates.now codes.now in
            length (at_instr plan (λ k. (H.meant halves.now self.old.role k).words) self.old inbox.old.items (Some instr.now)).sent ≤ spare outbox.old }
        ensures state { let plan = plan_of [] gates.now codes.now in
            self.new ≡ (at_instr plan (λ k. (H.meant halves.now self.old.role k).words) self.old inbox.old.items (Some instr.now)).state }
        ensures sent { let plan = plan_of [] gates.now codes.now in
            outbox.new.items ≡ outbox.old.items ++ (at_instr plan (λ k. (H.meant halves.now self.old.role k).words) self.old inbox.old.items (Some instr.now)).sent }
        ensures taken { let plan = plan_of [] gates.now codes.now in
            inbox.new.items ≡ drop (at_instr plan (λ k. (H.meant halves.now self.old.role k).words) self.old inbox.old.items (Some instr.now)).taken inbox.old.items }
        ensures rooms { (inbox.new.room ≡ inbox.old.room) × (outbox.new.room ≡ outbox.old.room) }
        ensures answer { let plan = plan_of [] gates.now codes.now in
            result ≡ (at_instr plan (λ k. (H.meant halves.now self.old.role k).words) self.old inbox.old.items (Some instr.now)).answer }
    {
        let receives = instr.kind.has_frame(other(self.role));
        if both(self.receiving, receives) {
            if inbox.is_empty() {
                return Turn::Waits;
            }
            self.receive(instr, gates, codes, halves, inbox);
        } else {
            self.send(instr, receives, gates, codes, halves, outbox);
        }
        Turn::Moved
    }

    /// The send half of an instruction, with which it ends where the other sends nothing.
    fn send<H: Halves>(
        &mut self,
        instr: &Instr,
        receives: bool,
        gates: &[Instr],
        codes: &[u32],
        halves: &H,
        outbox: &mut Queue,
    )
        requires receives { receives ≡ has_frame instr.now.kind (other self.old.role) }
        requires made { level_gates gates.now instr.now ≤ self.old.room }
        requires place { self.old.place < 2 ^ 62 }
        requires room { let v = view_at (plan_of [] gates.now codes.now) (λ k. (H.meant halves.now self.old.role k).words) self.old instr.now in
            length (frame_bytes instr.now.kind (payload instr.now v)) ≤ spare outbox.old }
        ensures state { let plan = plan_of [] gates.now codes.now in
            self.new ≡ after_send (has_frame instr.now.kind (other self.old.role)) plan (λ k. (H.meant halves.now self.old.role k).words) self.old instr.now }
        ensures sent { let v = view_at (plan_of [] gates.now codes.now) (λ k. (H.meant halves.now self.old.role k).words) self.old instr.now in
            outbox.new.items ≡ outbox.old.items ++ frame_bytes instr.now.kind (payload instr.now v) }
        ensures room { outbox.new.room ≡ outbox.old.room }
    {
        let sends = instr.kind.has_frame(self.role);
        match (sends, receives) {
            (true, true) => self.send_both(instr, gates, codes, halves, outbox),
            (true, false) => self.send_alone(instr, gates, codes, halves, outbox),
            (false, true) => self.receiving = true,
            (false, false) => self.pass(instr, codes, halves),
        }
    }

    /// The send half of an instruction for which both send.
    fn send_both<H: Halves>(
        &mut self,
        instr: &Instr,
        gates: &[Instr],
        codes: &[u32],
        halves: &H,
        outbox: &mut Queue,
    )
        requires own { has_frame instr.now.kind self.old.role ≡ true }
        requires other { has_frame instr.now.kind (other self.old.role) ≡ true }
        requires room { let v = view_at (plan_of [] gates.now codes.now) (λ k. (H.meant halves.now self.old.role k).words) self.old instr.now in
            length (frame_for instr.now.kind (rule instr.now.kind instr.now v).message) ≤ spare outbox.old }
        ensures state { self.new ≡ record self.old { receiving = true } }
        ensures sent { let v = view_at (plan_of [] gates.now codes.now) (λ k. (H.meant halves.now self.old.role k).words) self.old instr.now in
            outbox.new.items ≡ outbox.old.items ++ frame_for instr.now.kind (rule instr.now.kind instr.now v).message }
        ensures room { outbox.new.room ≡ outbox.old.room }
    {
        let own = word_in(self.own.as_slice(), instr.value);
        both_send(
            self.role,
            instr,
            gates,
            codes,
            self.offset,
            self.chosen,
            own,
            halves,
            self.slots.as_slice(),
            outbox,
        );
        self.receiving = true;
    }

    /// The end of an instruction for which this party alone sends.
    fn send_alone<H: Halves>(
        &mut self,
        instr: &Instr,
        gates: &[Instr],
        codes: &[u32],
        halves: &H,
        outbox: &mut Queue,
    )
        requires own { has_frame instr.now.kind self.old.role ≡ true }
        requires other { has_frame instr.now.kind (other self.old.role) ≡ false }
        requires made { level_gates gates.now instr.now ≤ self.old.room }
        requires place { self.old.place < 2 ^ 62 }
        requires room { let v = view_at (plan_of [] gates.now codes.now) (λ k. (H.meant halves.now self.old.role k).words) self.old instr.now in
            length (frame_for instr.now.kind (rule instr.now.kind instr.now v).message) ≤ spare outbox.old }
        ensures state { self.new ≡ ended (plan_of [] gates.now codes.now) (λ k. (H.meant halves.now self.old.role k).words) self.old instr.now [] }
        ensures sent { let v = view_at (plan_of [] gates.now codes.now) (λ k. (H.meant halves.now self.old.role k).words) self.old instr.now in
            outbox.new.items ≡ outbox.old.items ++ frame_for instr.now.kind (rule instr.now.kind instr.now v).message }
        ensures room { outbox.new.room ≡ outbox.old.room }
    {
        let own = word_in(self.own.as_slice(), instr.value);
        self.chosen = own_half(
            self.role,
            instr,
            gates,
            codes,
            self.offset,
            self.chosen,
            own,
            halves,
            self.slots.as_mut_slice(),
            self.shares.as_mut_slice(),
            outbox,
        );
        self.receiving = false;
        self.place += 1;
    }

    /// The end of an instruction for which nobody sends.
    fn pass<H: Halves>(&mut self, instr: &Instr, codes: &[u32], halves: &H)
        requires own { has_frame instr.now.kind self.old.role ≡ false }
        requires other { has_frame instr.now.kind (other self.old.role) ≡ false }
        requires place { self.old.place < 2 ^ 62 }
        ensures { (gates : List Instr) →
            self.new ≡ ended (plan_of [] gates codes.now) (λ k. (H.meant halves.now self.old.role k).words) self.old instr.now [] }
    {
        local(
            self.role,
            instr,
            codes,
            self.offset,
            self.slots.as_mut_slice(),
        );
        self.offset = offset_after(self.role, instr, self.offset, halves);
        self.receiving = false;
        self.place += 1;
    }

    /// The receive half of an instruction, with which it ends.
    fn receive<H: Halves>(
        &mut self,
        instr: &Instr,
        gates: &[Instr],
        codes: &[u32],
        halves: &H,
        inbox: &mut Queue,
    )
        requires other { has_frame instr.now.kind (other self.old.role) ≡ true }
        requires made { level_gates gates.now instr.now ≤ self.old.room }
        requires place { self.old.place < 2 ^ 62 }
        requires whole { 5 + wanted gates.now self.old.role instr.now ≤ length inbox.old.items }
        ensures state { let payload = take (wanted gates.now self.old.role instr.now) (drop 5 inbox.old.items) in
            self.new ≡ ended (plan_of [] gates.now codes.now) (λ k. (H.meant halves.now self.old.role k).words) self.old instr.now payload }
        ensures taken { inbox.new.items ≡ drop (5 + wanted gates.now self.old.role instr.now) inbox.old.items }
        ensures room { inbox.new.room ≡ inbox.old.room }
    {
        let size = wanted(self.role, instr, gates);
        if instr.kind.has_frame(self.role) {
            self.end_both(instr, gates, codes, halves, inbox);
        } else {
            self.end_other(instr, gates, codes, halves, inbox);
        }
        inbox.take(HEAD + size);
    }

    /// The end of an instruction for which both send.
    fn end_both<H: Halves>(
        &mut self,
        instr: &Instr,
        gates: &[Instr],
        codes: &[u32],
        halves: &H,
        inbox: &Queue,
    )
        requires own { has_frame instr.now.kind self.old.role ≡ true }
        requires other { has_frame instr.now.kind (other self.old.role) ≡ true }
        requires made { level_gates gates.now instr.now ≤ self.old.room }
        requires place { self.old.place < 2 ^ 62 }
        requires whole { 5 + wanted gates.now self.old.role instr.now ≤ length inbox.now.items }
        ensures { let payload = take (wanted gates.now self.old.role instr.now) (drop 5 inbox.now.items) in
            self.new ≡ ended (plan_of [] gates.now codes.now) (λ k. (H.meant halves.now self.old.role k).words) self.old instr.now payload }
    {
        let word = both_receive(
            self.role,
            instr,
            gates,
            codes,
            self.offset,
            halves,
            self.slots.as_mut_slice(),
            self.shares.as_mut_slice(),
            inbox,
        );
        self.openings = note(instr.kind, word, self.words.as_mut_slice(), self.openings);
        self.receiving = false;
        self.place += 1;
    }

    /// The end of an instruction for which the other alone sends.
    fn end_other<H: Halves>(
        &mut self,
        instr: &Instr,
        gates: &[Instr],
        codes: &[u32],
        halves: &H,
        inbox: &Queue,
    )
        requires own { has_frame instr.now.kind self.old.role ≡ false }
        requires other { has_frame instr.now.kind (other self.old.role) ≡ true }
        requires made { level_gates gates.now instr.now ≤ self.old.room }
        requires place { self.old.place < 2 ^ 62 }
        requires whole { 5 + wanted gates.now self.old.role instr.now ≤ length inbox.now.items }
        ensures { let payload = take (wanted gates.now self.old.role instr.now) (drop 5 inbox.now.items) in
            self.new ≡ ended (plan_of [] gates.now codes.now) (λ k. (H.meant halves.now self.old.role k).words) self.old instr.now payload }
    {
        self.chosen = other_half(
            self.role,
            instr,
            gates,
            codes,
            self.offset,
            self.chosen,
            halves,
            self.slots.as_mut_slice(),
            self.shares.as_mut_slice(),
            inbox,
        );
        self.receiving = false;
        self.place += 1;
    }
}

/// The instruction in a place.
fn instr_at(instrs: &[Instr], place: usize) -> Option<Instr>
    ensures value { result ≡ slice_get instrs.now place }
    ensures within { IfSome result (λ instr. place < 2 ^ 62) }
{
    instrs.get(place).copied()
}

/// Whether a frame with so many bytes of payload stands whole in the inbox, or the inbox is empty.
fn stands(inbox: &Queue, payload: usize) -> bool
    requires { payload < 2 ^ 44 }
    ensures { OnTrue result ((code : ℕ) → Comes inbox.now.items (Some (code, payload))) }
{
    inbox.is_empty() || payload + HEAD <= inbox.len()
}

fn both(first: bool, second: bool) -> bool
    ensures { result ≡ (first && second) }
{
    first && second
}

/// The word in a place; 0 where none stands.
fn word_in(words: &[u64], place: u64) -> u64
    ensures { result ≡ slice_index words.now place }
{
    match words.get(place as usize) {
        Some(word) => *word,
        None => 0,
    }
}

/// Whether such an instruction is an opening.
fn is_opening(kind: InstrKind) -> bool
    ensures { result ≡ is_opening kind }
{
    match kind {
        InstrKind::OpenA | InstrKind::OpenB | InstrKind::OpenY => true,
        _ => false,
    }
}

/// Keeps the word that an opening gave, and gives the number of openings.
fn note(kind: InstrKind, word: u64, words: &mut [u64], openings: usize) -> usize
    requires { openings < 2 ^ 63 }
    ensures words { words.new ≡ (if is_opening kind then set words.old openings word else words.old) }
    ensures openings { result ≡ openings_after kind openings }
{
    if !is_opening(kind) {
        return openings;
    }
    if openings < words.len() {
        words[openings] = word;
    }
    openings + 1
}

/// The number of openings among the instructions.
fn count_openings(instrs: &[Instr]) -> usize
    ensures { result ≡ count_openings instrs.now }
{
    instrs.iter().filter(|instr| is_opening(instr.kind)).count()
}

/// The number of gates of the largest level.
fn most_gates(instrs: &[Instr], gates: &[Instr]) -> usize
    ensures { result ≡ most_gates gates.now instrs.now }
{
    let mut most = 0;
    for instr in instrs {
        most = greater(most, level_gates(instr, gates));
    }
    most
}

fn greater(a: usize, b: usize) -> usize
    ensures { result ≡ max a b }
{
    if a < b { b } else { a }
}

/// The number of gates of an instruction that is a level.
fn level_gates(instr: &Instr, gates: &[Instr]) -> usize
    ensures { result ≡ level_gates gates.now instr.now }
{
    if is_level(instr.kind) {
        gates_of(instr, gates).len()
    } else {
        0
    }
}
