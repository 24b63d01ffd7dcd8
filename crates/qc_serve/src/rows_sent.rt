//! The rows of a SELECT go out packet by packet, and into the fill of an entry where one was begun.

ghost use Rattle.std.specs.Prelude.{◌≡◌, ℕ, ◌≤◌, true, [], ◌∷◌, ◌++◌, List, IfErr, IfOk, IfSome, None, OnOk, OnErr};
ghost use Rattle.std.specs.List.{AllByRecursion, concat};
ghost use Rattle.qc_turn.specs.declared.task.Task.TheVariants as task;
ghost use Rattle.qc_turn.specs.Seats.{IsSeatOf, view};
ghost use Rattle.qc_flow.specs.Seats.{GoesOn, HasEnded, IsAtRest};
ghost use Rattle.qc_serve.specs.Executed.{MayFail};
ghost use Rattle.qc_serve.specs.Filling.{Fills, IsGone};
ghost use Rattle.qc_serve.specs.Querying.{IsPlanned, plan_packets};
ghost use Rattle.qc_serve.specs.Sent.{Adds, AreCut, IsPacket, NoneIsEmpty, Sends, SendsFrontOf, packet_size};
ghost use Rattle.qc_serve.specs.SentAt.{IsStored, SendsAt};

use crate::ending::End;
use crate::pieces::put_piece;
use crate::sinks::{Gate, Moment, ReplySink};
use qc_core::Server;
use qc_eval::Plan;
use qc_flow::{Fill, FillStep};
use qc_statements::RowPackets;
use qc_turn::{Seat, Turn};
use qc_types::{NoMemory, Steps, Text};
use std::alloc::Global;
use std::sync::Wait;
use std::sync::ledger::Ledger;

/// The packets of a plan's rows, once the plan is loaded.
pub(crate) fn loaded<L: Ledger>(
    alloc: Global,
    plan: Plan,
    status: u16,
    steps: &mut Steps<L>,
) -> Result<RowPackets, NoMemory>
    requires { IsPlanned plan }
    ensures { IfOk result (λ packets. packets ≡ plan_packets plan status) }
{
    let mut plan = plan;
    plan.load(alloc, steps)?;
    Ok(RowPackets::of(plan, status))
}

/// Sends packets that no entry takes, and passes the gate between them.
pub(crate) fn send_rows<K: ReplySink, G: Gate, L: Ledger>(
    alloc: Global,
    seat: &Seat<Server>,
    packets: &mut RowPackets,
    session: u8,
    number: u64,
    sink: &mut K,
    gate: &G,
    steps: &mut Steps<L>,
) -> Result<(), End>
    ensures sends { OnOk result (Sends (K.held sink.old) (K.held sink.new) (concat packets.old)) }
    ensures front { OnErr result (SendsFrontOf (K.held sink.old) (K.held sink.new) (concat packets.old)) }
    ensures cut { AllByRecursion IsPacket packets.old → Adds (K.held sink.old) (K.held sink.new) (AreCut packet_size) }
    ensures some { AllByRecursion IsPacket packets.old → OnOk result (Adds (K.held sink.old) (K.held sink.new) NoneIsEmpty) }
    ensures cause { IfErr result (MayFail (K.faults sink.old) (K.faults sink.new)) }
    ensures later { K.faults sink.old ≤ K.faults sink.new }
{
    let mut packet = Text::from_vec(Vec::new(alloc));
    let mut first = true;
    while packets.next(alloc, steps, &mut packet)? {
        if !first {
            gate.pass(seat, session, Moment::Between(number));
        }
        first = false;
        put_piece(seat, packet.bytes(), sink)?;
    }
    Ok(())
}

/// Loads a plan, and sends its rows while the seat fills the entry that was begun for it.
pub(crate) fn fill_plan<R: Wait, K: ReplySink, G: Gate, L: Ledger>(
    rt: &R,
    alloc: Global,
    turn: &Turn<Server>,
    seat: &mut Seat<Server>,
    fill: &mut Option<Fill>,
    plan: Plan,
    status: u16,
    session: u8,
    number: u64,
    sink: &mut K,
    gate: &G,
    steps: &mut Steps<L>,
) -> Result<(), End>
    requires seated { IsSeatOf turn.now seat.old }
    requires fills { (serial : ℕ) × Fills serial (plan_packets plan status) fill.old seat.old }
    requires plan { IsPlanned plan }
    ensures seated { IsSeatOf turn.now seat.new × (seat.new.ranges.room ≡ seat.old.ranges.room) }
    ensures goes_on { GoesOn (view seat.old) (view seat.new) }
    ensures fills { (serial : ℕ) → Fills serial (plan_packets plan status) fill.old seat.old → (left : List (List ℕ)) × Fills serial left fill.new seat.new × OnOk result (left ≡ []) }
    ensures sends { OnOk result (Sends (K.held sink.old) (K.held sink.new) (concat (plan_packets plan status))) }
    ensures at { (serial : ℕ) → Fills serial (plan_packets plan status) fill.old seat.old → OnOk result (IfSome fill.new (λ f. SendsAt (task.Fill serial) (K.held sink.old) (K.held sink.new) (concat (plan_packets plan status)))) }
    ensures stored { IsStored fill.new (view seat.old) (view seat.new) (K.held sink.old) (K.held sink.new) }
    ensures front { OnErr result (SendsFrontOf (K.held sink.old) (K.held sink.new) (concat (plan_packets plan status))) }
    ensures cut { Adds (K.held sink.old) (K.held sink.new) (AreCut packet_size) }
    ensures some { OnOk result (Adds (K.held sink.old) (K.held sink.new) NoneIsEmpty) }
    ensures cause { IfErr result (MayFail (K.faults sink.old) (K.faults sink.new)) }
    ensures later { K.faults sink.old ≤ K.faults sink.new }
{
    let mut packets = loaded(alloc, plan, status, steps)?;
    fill_rows(
        rt,
        alloc,
        turn,
        seat,
        fill,
        &mut packets,
        session,
        number,
        sink,
        gate,
        steps,
    )
}

/// Sends the packets of an entry's answer, each of them after it went into the fill, for as long as that goes on, and passes the gate between them. Where the
/// fill doesn't go on, there is none any more, and its seat rests.
pub(crate) fn fill_rows<R: Wait, K: ReplySink, G: Gate, L: Ledger>(
    rt: &R,
    alloc: Global,
    turn: &Turn<Server>,
    seat: &mut Seat<Server>,
    fill: &mut Option<Fill>,
    packets: &mut RowPackets,
    session: u8,
    number: u64,
    sink: &mut K,
    gate: &G,
    steps: &mut Steps<L>,
) -> Result<(), End>
    requires seated { IsSeatOf turn.now seat.old }
    requires fills { (serial : ℕ) × Fills serial packets.old fill.old seat.old }
    ensures seated { IsSeatOf turn.now seat.new × (seat.new.ranges.room ≡ seat.old.ranges.room) }
    ensures goes_on { GoesOn (view seat.old) (view seat.new) }
    ensures fills { (serial : ℕ) → Fills serial packets.old fill.old seat.old → Fills serial packets.new fill.new seat.new }
    ensures all { OnOk result (packets.new ≡ []) }
    ensures sends { OnOk result (Sends (K.held sink.old) (K.held sink.new) (concat packets.old)) }
    ensures at { (serial : ℕ) → Fills serial packets.old fill.old seat.old → OnOk result (IfSome fill.new (λ f. SendsAt (task.Fill serial) (K.held sink.old) (K.held sink.new) (concat packets.old))) }
    ensures stored { IsStored fill.new (view seat.old) (view seat.new) (K.held sink.old) (K.held sink.new) }
    ensures front { OnErr result (SendsFrontOf (K.held sink.old) (K.held sink.new) (concat packets.old)) }
    ensures cut { AllByRecursion IsPacket packets.old → Adds (K.held sink.old) (K.held sink.new) (AreCut packet_size) }
    ensures some { AllByRecursion IsPacket packets.old → OnOk result (Adds (K.held sink.old) (K.held sink.new) NoneIsEmpty) }
    ensures cause { IfErr result (MayFail (K.faults sink.old) (K.faults sink.new)) }
    ensures later { K.faults sink.old ≤ K.faults sink.new }
{
    let mut packet = Text::from_vec(Vec::new(alloc));
    let mut first = true;
    while packets.next(alloc, steps, &mut packet)? {
        if !first {
            gate.pass(seat, session, Moment::Between(number));
        }
        first = false;
        let next = packet.bytes();
        store(rt, turn, seat, fill, next);
        put_piece(seat, next, sink)?;
    }
    Ok(())
}

/// Puts the packet that comes next into a fill, where there is one still.
fn store<R: Wait>(
    rt: &R,
    turn: &Turn<Server>,
    seat: &mut Seat<Server>,
    fill: &mut Option<Fill>,
    packet: &[u8],
)
    requires seated { IsSeatOf turn.now seat.old }
    requires fills { (serial : ℕ) × ((later : List (List ℕ)) × Fills serial (packet.now ∷ later) fill.old seat.old) }
    ensures seated { IsSeatOf turn.now seat.new × (seat.new.ranges.room ≡ seat.old.ranges.room) }
    ensures goes_on { GoesOn (view seat.old) (view seat.new) }
    ensures fills { (serial : ℕ) (later : List (List ℕ)) → Fills serial (packet.now ∷ later) fill.old seat.old → Fills serial later fill.new seat.new }
    ensures none { fill.old ≡ None → fill.new ≡ None }
    ensures stored { IfSome fill.new (λ f. (view seat.new).content ≡ (view seat.old).content ++ packet.now) }
{
    let Some(mut going) = fill.take() else {
        return;
    };
    if let FillStep::More = going.put(rt, turn, seat, packet) {
        *fill = Some(going);
    }
}

/// Ends a fill, where there is one still: its entry is complete where the whole reply is stored and went out, and else it is given up.
pub(crate) fn end_fill<R: Wait>(
    rt: &R,
    turn: &Turn<Server>,
    seat: &mut Seat<Server>,
    fill: Option<Fill>,
    is_whole: bool,
)
    requires seated { IsSeatOf turn.now seat.old }
    requires fills { (serial : ℕ) × ((left : List (List ℕ)) × Fills serial left fill seat.old × (is_whole ≡ true → left ≡ [])) }
    ensures seated { IsSeatOf turn.now seat.new × (seat.new.ranges.room ≡ seat.old.ranges.room) }
    ensures goes_on { GoesOn (view seat.old) (view seat.new) }
    ensures rests { IsAtRest (view seat.new) }
    ensures ended { (serial : ℕ) (left : List (List ℕ)) → Fills serial left fill seat.old → is_whole ≡ true → HasEnded serial (view seat.new) }
    ensures gone { (serial : ℕ) (left : List (List ℕ)) → Fills serial left fill seat.old → fill ≡ None → IsGone serial (view seat.new).seen }
{
    match fill {
        None => {}
        Some(fill) => {
            if is_whole {
                fill.end(rt, turn, seat);
            } else {
                fill.abandon(rt, turn, seat);
            }
        }
    }
}
