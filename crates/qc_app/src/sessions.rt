//! Sessions of a script, each with its input and what it has answered.

ghost use Rattle.std.specs.Prelude.{◌≡◌, ◌≢◌, None, IfSome, IfNone};
ghost use Rattle.std.specs.List.{All, AllZip};
ghost use Rattle.qc_app.specs.SessionEnds.{IsOutcomeOf};
ghost use Rattle.qc_app.specs.Sessions.{IsServed, MayServe, new_slot};

use crate::outcomes::Outcome;
use crate::session_input::serve_input;
use qc_core::Server;
use qc_model::reports::{Ending, ReportLines, SessionReport};
use qc_serve::{End, Gate, Session};
use qc_turn::{Seat, Turn};
use qc_types::Text;
use std::alloc::Global;
use std::marker::Brand;
use std::sync::Wait;
use std::sync::ledger::Blank;
use std::thread::{Threads, for_each_mut};

/// A session and its input; once it has ended, its lines, and how its input ended. No ending: memory was wanting.
pub(crate) struct Slot {
    pub(crate) session: Session,
    pub(crate) input: Text,
    pub(crate) lines: ReportLines,
    pub(crate) ending: Option<Ending>,
}

impl Slot {
    /// A session that has answered nothing.
    pub(crate) fn new(alloc: Global, session: Session, input: Text) -> Slot
        ensures { result ≡ new_slot session input }
    {
        Slot {
            session,
            input,
            lines: ReportLines::new(alloc),
            ending: None,
        }
    }

    /// Serves the session's input to its end; or ends the session, for want of memory, before it has answered anything.
    pub(crate) fn serve<R: Wait, G: Gate>(
        &mut self,
        rt: &R,
        alloc: Global,
        turn: &Turn<Server>,
        may_serve: bool,
        gate: &G,
    )
        requires { MayServe turn.now self.old }
        ensures { IsServed turn.now self.old self.new }
    {
        let Slot {
            session,
            input,
            lines,
            ending,
        } = self;
        if !may_serve {
            session.finish(rt, turn, End::Memory);
            return;
        }
        *ending = serve_input::<R, G, Brand>(
            rt,
            alloc,
            turn,
            session,
            input.bytes(),
            lines,
            gate,
            Blank::new(1),
        );
    }

    /// The seat of a session that has ended, and what the session leaves, where its input was served to its end.
    pub(crate) fn into_parts(self) -> (Seat<Server>, Option<Outcome>)
        requires { self.session.end ≢ None }
        ensures seat { result.0 ≡ self.session.seat }
        ensures outcome { IfSome result.1 (IsOutcomeOf self) }
    {
        let Slot {
            session,
            input: _,
            lines,
            ending,
        } = self;
        let (seat, receipt) = session.into_seat();
        let Some(ending) = ending else {
            return (seat, None);
        };
        let report = SessionReport {
            session: receipt.session(),
            lines,
            ending,
        };
        (seat, Some(Outcome { report, receipt }))
    }
}

/// Serves all sessions at the same time, each in a thread of its own where one can be made; or ends them, for want of memory, before they have answered
/// anything.
pub(crate) fn serve_all<R: Threads + Wait + Sync, G: Gate + Sync>(
    rt: &R,
    alloc: Global,
    turn: &Turn<Server>,
    slots: Vec<Slot>,
    may_serve: bool,
    gate: &G,
) -> Vec<Slot>
    requires { All (MayServe turn.now) slots.items }
    ensures { AllZip (IsServed turn.now) slots.items result.items }
{
    let mut slots = slots;
    serve_each(rt, alloc, turn, slots.as_mut_slice(), may_serve, gate);
    slots
}

/// The same of sessions that are lent.
fn serve_each<R: Threads + Wait + Sync, G: Gate + Sync>(
    rt: &R,
    alloc: Global,
    turn: &Turn<Server>,
    slots: &mut [Slot],
    may_serve: bool,
    gate: &G,
)
    requires { All (MayServe turn.now) slots.old }
    ensures { AllZip (IsServed turn.now) slots.old slots.new }
{
    let threads = slots.len().max(1);
    for_each_mut(
        rt,
        slots,
        threads,
        &|_, slot: &mut Slot|
            requires { MayServe turn.now slot.now }
            ensures { IsServed turn.entry.now slot.entry.now slot.exit.now }
        { slot.serve(rt, alloc, turn, may_serve, gate) },
    );
}
