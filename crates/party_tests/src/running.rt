//! Two parties run by hand over two queues.
use crate::given::{Dealt, deal};
use crate::plans::{EVERYTHING, MASKED, PRODUCT, SUM};
use crate::reading::{Plan, plan_of};
use byte_queue::Queue;
use dealer::Dealer;
use hy_bits::Role;
use party::{Party, Turn};
use rand_chacha::ChaCha20Rng;
use rand_core::SeedableRng;
use sha2::{Digest, Sha256};
use std::alloc::Global;
use std::process::Abort;
use std::test::Fail;

/// One turn of a party that stands at the instruction `place`.
fn turn(
    rt: &impl Abort,
    party: &mut Party,
    plan: &Plan,
    dealt: &Dealt,
    place: usize,
    inbox: &mut Queue,
    outbox: &mut Queue,
) -> Turn {
    let instrs = plan.instrs.as_slice();
    let gates = plan.gates.as_slice();
    assert!(rt; party.is_ready(instrs, gates, inbox, outbox));
    party.turn(
        instrs,
        gates,
        plan.codes.as_slice(),
        &dealt.at(place),
        inbox,
        outbox,
    )
}

/// A party, and where it stands.
#[derive(Drop)]
struct Side {
    role: Role,
    party: Party,
    place: usize,
    receiving: bool,
}

/// The other party.
fn other(role: Role) -> Role {
    match role {
        Role::P0 => Role::P1,
        Role::P1 => Role::P0,
    }
}

/// Whether the role sends a frame for the instruction in a place.
fn sends(plan: &Plan, place: usize, role: Role) -> bool {
    match plan.instrs.as_slice().get(place) {
        Some(instr) => instr.kind.has_frame(role),
        None => false,
    }
}

/// One turn of a side: whether it moved.
fn step(
    rt: &impl Abort,
    side: &mut Side,
    plan: &Plan,
    dealt: &Dealt,
    inbox: &mut Queue,
    outbox: &mut Queue,
) -> bool {
    let answer = turn(rt, &mut side.party, plan, dealt, side.place, inbox, outbox);
    if answer != Turn::Moved {
        return false;
    }
    if !side.receiving && sends(plan, side.place, other(side.role)) {
        side.receiving = true;
    } else {
        side.receiving = false;
        side.place = side.place.saturating_add(1);
    }
    true
}

/// The bytes of a queue from a place on.
fn bytes_from(alloc: Global, queue: &Queue, at: usize) -> Result<Vec<u8>, Fail> {
    let mut bytes = Vec::new(alloc);
    for place in at..queue.len() {
        bytes.push(queue.byte(place))?;
    }
    Ok(bytes)
}

/// Adds the frame that was put to the transcript.
fn note(
    alloc: Global,
    transcript: &mut String,
    role: usize,
    queue: &Queue,
    before: usize,
) -> Result<(), Fail> {
    let frame = bytes_from(alloc, queue, before)?;
    if frame.is_empty() {
        return Ok(());
    }
    let length = frame.len();
    let line = format!(in alloc; "f {role} {length} ")?;
    transcript.push_str(line.as_str())?;
    for byte in &Sha256::digest(frame.as_slice())[..8] {
        let digits = format!(in alloc; "{byte:02x}")?;
        transcript.push_str(digits.as_str())?;
    }
    transcript.push_str("\n")?;
    Ok(())
}

/// Two sides, and the queues from the first and from the second.
#[derive(Drop)]
struct Pair {
    first: Side,
    second: Side,
    from_first: Queue,
    from_second: Queue,
}

fn begun(alloc: Global, plan: &Plan) -> Result<Pair, Fail> {
    let instrs = plan.instrs.as_slice();
    let gates = plan.gates.as_slice();
    Ok(Pair {
        first: Side {
            role: Role::P0,
            party: Party::new(alloc, Role::P0, instrs, gates, plan.shares, &plan.first)?,
            place: 0,
            receiving: false,
        },
        second: Side {
            role: Role::P1,
            party: Party::new(alloc, Role::P1, instrs, gates, plan.shares, &plan.second)?,
            place: 0,
            receiving: false,
        },
        from_first: Queue::new(alloc, 6000)?,
        from_second: Queue::new(alloc, 1000)?,
    })
}

/// A step of a side, whose frame is noted: whether it moved.
fn noted(
    rt: &impl Abort,
    alloc: Global,
    role: usize,
    side: &mut Side,
    plan: &Plan,
    dealt: &Dealt,
    inbox: &mut Queue,
    outbox: &mut Queue,
    transcript: &mut String,
) -> Result<bool, Fail> {
    let before = outbox.len();
    let moved = step(rt, side, plan, dealt, inbox, outbox);
    note(alloc, transcript, role, outbox, before)?;
    Ok(moved)
}

/// A step of the first or the second side.
fn step_of(
    rt: &impl Abort,
    alloc: Global,
    pair: &mut Pair,
    plan: &Plan,
    dealt: &Dealt,
    first: bool,
    transcript: &mut String,
) -> Result<bool, Fail> {
    let there = &mut pair.from_first;
    let back = &mut pair.from_second;
    if first {
        noted(
            rt,
            alloc,
            0,
            &mut pair.first,
            plan,
            dealt,
            back,
            there,
            transcript,
        )
    } else {
        noted(
            rt,
            alloc,
            1,
            &mut pair.second,
            plan,
            dealt,
            there,
            back,
            transcript,
        )
    }
}

/// The transcript of a plan under the turns `ab`, and the opened words, which both sides have.
fn run(rt: &impl Abort, alloc: Global, text: &str) -> Result<String, Fail> {
    let plan = plan_of(alloc, text)?;
    let mut dealer = Dealer::new(ChaCha20Rng::from_seed([0; 32]));
    let dealt = deal(
        alloc,
        &mut dealer,
        plan.instrs.as_slice(),
        plan.gates.as_slice(),
    )?;
    let mut pair = begun(alloc, &plan)?;
    let mut transcript = String::new(alloc);
    for number in 0..1000u32 {
        let first = number % 2 == 0;
        if !step_of(rt, alloc, &mut pair, &plan, &dealt, first, &mut transcript)? {
            step_of(rt, alloc, &mut pair, &plan, &dealt, !first, &mut transcript)?;
        }
    }
    assert!(rt; pair.from_first.is_empty() && pair.from_second.is_empty());
    add_opened(
        rt,
        alloc,
        &pair.first.party,
        &pair.second.party,
        &mut transcript,
    )?;
    Ok(transcript)
}

fn add_opened(
    rt: &impl Abort,
    alloc: Global,
    first: &Party,
    second: &Party,
    transcript: &mut String,
) -> Result<(), Fail> {
    assert_eq!(rt; first.openings(), second.openings());
    for k in 0..100u32 {
        if (k as usize) < first.openings() && (k as usize) < second.openings() {
            let word = first.opened(k);
            assert_eq!(rt; second.opened(k), word);
            let line = format!(in alloc; "o {word}\n")?;
            transcript.push_str(line.as_str())?;
        }
    }
    Ok(())
}

#[test]
fn each_kind_of_instruction_sends_the_frames_of_another_program(
    rt: HostRuntime,
) -> Result<(), Fail> {
    let found = run(&rt, rt.alloc(), EVERYTHING.0)?;
    assert_eq!(rt; found.as_str(), EVERYTHING.1);
    Ok(())
}

#[test]
fn a_sum_and_a_product_send_the_frames_of_another_program(rt: HostRuntime) -> Result<(), Fail> {
    for (plan, want) in [SUM, PRODUCT] {
        let found = run(&rt, rt.alloc(), plan)?;
        assert_eq!(rt; found.as_str(), want);
    }
    Ok(())
}

#[test]
fn a_sum_that_is_masked_at_y_sends_the_frames_of_another_program(
    rt: HostRuntime,
) -> Result<(), Fail> {
    let found = run(&rt, rt.alloc(), MASKED.0)?;
    assert_eq!(rt; found.as_str(), MASKED.1);
    Ok(())
}
