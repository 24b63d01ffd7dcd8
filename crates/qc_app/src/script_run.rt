//! A script is run.

ghost use Rattle.std.specs.Prelude.{◌≡◌, ◌+◌, ◌<◌, ◌≤◌, [], length, reverse, vec_capacity, IfOk, OnOk};
ghost use Rattle.qc_script.specs.ShortNames.{HasShortNames};
ghost use Rattle.qc_turn.specs.Seats.{view};
ghost use Rattle.qc_turn.specs.Views.{AllMet};
ghost use Rattle.qc_core.specs.Whole.{IsSomewhereSound};
ghost use Rattle.qc_app.specs.SessionStarts.{HasSplit, IsFirst};
ghost use Rattle.qc_app.specs.ScriptRun.{AreTaken, HaveReceipts, HaveRun, HaveServed, IsReportOf, MayRun, behind_setup};

use crate::outcomes::{Outcome, in_order};
use crate::reports::report_of;
use crate::session_ends::join_sessions;
use crate::session_starts::open_sessions;
use crate::sessions::{Slot, serve_all};
use crate::setup::prepare;
use qc_core::Server;
use qc_model::reports::{Report, Script};
use qc_serve::{Gate, Receipts};
use qc_turn::{Seat, Turn};
use qc_types::{NoMemory, Options, Text};
use std::alloc::Global;
use std::sync::Wait;
use std::thread::Threads;

/// A run of a script.
#[derive(Drop)]
pub struct Ran {
    /// Its report.
    pub report: Report,
    /// The server as the last seat left it.
    pub server: Server,
    /// A receipt of each session, in the order of the report.
    pub receipts: Receipts,
}

/// Runs a script over one server with these options: the setup part alone, and then its sessions at the same time, each in a thread of its own where one
/// can be made. The one error is want of memory. The cost is that of the sessions' commands, and linear in the script and in the report.
pub fn run_script<R: Threads + Wait + Sync, G: Gate + Sync>(
    rt: &R,
    alloc: Global,
    options: Options,
    script: Script,
    gate: &G,
) -> Result<Ran, NoMemory>
    requires options { AreTaken options }
    requires script { MayRun script }
    ensures agrees { IfOk result (λ ran. IsReportOf script options ran.report) }
    ensures names { IfOk result (λ ran. HasShortNames ran.report) }
    ensures server { IfOk result (λ ran. IsSomewhereSound ran.server × (ran.server.journal.events ≡ ran.report.journal)) }
    ensures options { IfOk result (λ ran. ran.server.options ≡ ran.report.options) }
    ensures receipts { IfOk result (λ ran. HaveReceipts ran.report.sessions ran.receipts) }
{
    let Script { setup, sessions } = script;
    let inputs = sessions.into_vec();
    let mut outcomes = Vec::with_capacity(alloc, inputs.len() + 1)?;
    let server = run_parts(rt, alloc, &options, setup, inputs, gate, &mut outcomes)?;
    let (reports, receipts) = in_order(alloc, outcomes)?;
    let report = report_of(options, reports, &server)?;
    Ok(Ran {
        report,
        server,
        receipts: Receipts::from_vec(receipts),
    })
}

/// Runs the setup part and the sessions with these inputs, and gives the server that they leave. Their outcomes come in the opposite order.
fn run_parts<R: Threads + Wait + Sync, G: Gate + Sync>(
    rt: &R,
    alloc: Global,
    options: &Options,
    setup: Option<Text>,
    inputs: Vec<Text>,
    gate: &G,
    outcomes: &mut Vec<Outcome>,
) -> Result<Server, NoMemory>
    requires options { AreTaken options.now }
    requires few { length inputs.items ≤ 64 }
    requires room { (outcomes.old.items ≡ []) × (length inputs.items + 1 ≤ vec_capacity outcomes.old) }
    ensures { IfOk result (HaveRun options.now setup inputs.items (reverse outcomes.new.items)) }
{
    let server = Server::new(alloc, *options)?;
    let slots = Vec::with_capacity(alloc, inputs.len())?;
    match Turn::new(alloc, server, options.size / 8) {
        Ok((turn, first)) => {
            let (first, prepared) = prepare(rt, alloc, &turn, first, options, setup, gate);
            let mut first = first;
            let served = run_over(
                rt,
                alloc,
                &turn,
                &mut first,
                options,
                inputs,
                prepared.is_ok(),
                gate,
                slots,
                outcomes,
            );
            let server = turn.close(first);
            put_setup(prepared?, outcomes);
            served?;
            Ok(server)
        }
        Err(NoMemory) => {
            slots.destroy_empty();
            Err(NoMemory)
        }
    }
}

/// Puts what the setup part left, where the script has one, behind what the sessions left.
fn put_setup(setup: Option<Outcome>, outcomes: &mut Vec<Outcome>)
    requires { length outcomes.old.items < vec_capacity outcomes.old }
    ensures { reverse outcomes.new.items ≡ behind_setup setup (reverse outcomes.old.items) }
{
    if let Some(outcome) = setup {
        outcomes.push_reserved(outcome);
    }
}

/// Runs the sessions over a turn; or ends them, for want of memory, before they have answered anything.
fn run_over<R: Threads + Wait + Sync, G: Gate + Sync>(
    rt: &R,
    alloc: Global,
    turn: &Turn<Server>,
    first: &mut Seat<Server>,
    options: &Options,
    inputs: Vec<Text>,
    may_serve: bool,
    gate: &G,
    slots: Vec<Slot>,
    outcomes: &mut Vec<Outcome>,
) -> Result<(), NoMemory>
    requires first { HasSplit turn.now options.now first.old 0 }
    requires few { length inputs.items ≤ 64 }
    requires room { (slots.items ≡ []) × (length inputs.items ≤ vec_capacity slots) × (outcomes.old.items ≡ []) × (length inputs.items ≤ vec_capacity outcomes.old) }
    ensures first { IsFirst turn.now first.new × AllMet (view first.new).registry }
    ensures same { ((view first.new).events ≡ (view first.old).events) × ((view first.new).fixed ≡ (view first.old).fixed) }
    ensures ran { OnOk result (HaveServed turn.now options.now inputs.items (reverse outcomes.new.items) (view first.old).seen (view first.new)) }
    ensures room { (length outcomes.new.items ≤ length inputs.items) × (vec_capacity outcomes.new ≡ vec_capacity outcomes.old) }
{
    let mut slots = slots;
    let opened = open_sessions(rt, alloc, turn, first, options, inputs, &mut slots);
    let slots = serve_all(rt, alloc, turn, slots, may_serve && opened.is_ok(), gate);
    let served = join_sessions(turn, first, slots, outcomes);
    opened?;
    if served { Ok(()) } else { Err(NoMemory) }
}
