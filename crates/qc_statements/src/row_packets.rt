//! The packets of a SELECT's rows, one after another.

ghost use Rattle.std.specs.Prelude.{◌≡◌, ◌≢◌, ◌≤◌, ◌++◌, [], length, map, IfOk, OnOk, OnErr, IsSome};
ghost use Rattle.qc_sql.specs.declared.replies.Reply.TheVariants as reply;
ghost use Rattle.qc_sql.specs.Packets as packets;
ghost use Rattle.qc_sql.specs.Packets.{packet_list, most_payload};
ghost use Rattle.qc_sql.specs.Rows.{text_of};
ghost use Rattle.qc_statements.specs.declared.row_packets.Part.TheVariants as packet;
ghost use Rattle.qc_statements.specs.Answers.{IsReady, rest_of, row_of, value_payload};
ghost use Rattle.qc_statements.specs.RowPackets.{IsReadyAt, PutsNext, payloads_at};

use qc_eval::Plan;
use qc_types::{NoMemory, Steps, Text};
use qc_wire::{OpenPacket, put_column, put_count, put_eof};
use std::alloc::Global;
use std::marker::Model;
use std::mem;
use std::sync::ledger::Ledger;

/// Which packet comes next.
#[derive(Clone, Copy)]
enum Part {
    /// How many columns there are.
    Count,
    /// The definition of this column, or behind the last one the EOF.
    Column(usize),
    /// The plan's next row, or behind the last one the EOF.
    Rows,
    /// The row on which the plan stands.
    Row,
    /// The EOF behind the rows.
    End,
    /// None.
    Nothing,
}

/// The packets of a loaded plan's columns and rows, given one after another. A row is made only when its packet is asked for. Contracts see the packets that
/// are still to come.
#[derive(Drop)]
pub struct RowPackets {
    plan: Plan,
    status: u16,
    sequence: u8,
    part: Part,
}

impl Model for RowPackets {
    ghost use Rattle.std.specs.Prelude.{List, ℕ};
    ghost use Rattle.qc_sql.specs.Packets.{numbered};
    ghost use Rattle.qc_statements.specs.RowPackets.{IsReadyAt, payloads_at};

    ghost Value = { List (List ℕ) };

    ghost view = { λ p. numbered p.sequence (payloads_at p.part p.plan p.status) };

    ghost invariant = { λ p. IsReadyAt p.part p.plan };
}

impl RowPackets {
    ghost use Rattle.qc_statements.specs.RowPackets.{GivesPacket};

    /// The packets of a loaded plan's columns and of the rows that it has still to give, numbered from 1, with these status flags.
    pub fn of(plan: Plan, status: u16) -> RowPackets
        requires { IsReady plan }
        ensures { result ≡ packet_list (reply.Rows plan.columns (map (map text_of) (rest_of plan)) status) }
    {
        RowPackets {
            plan,
            status,
            sequence: 1,
            part: Part::Count,
        }
    }

    /// Writes the next packet into `out`, in place of what stood there; false: the last one was given, and `out` is empty. Where memory runs out, the same packet
    /// comes next, and `out` may have a part of it. Cost: see `Plan::next`, and linear in the packet, whose bytes are each written once.
    pub fn next<L: Ledger>(
        &mut self,
        alloc: Global,
        steps: &mut Steps<L>,
        out: &mut Text,
    ) -> Result<bool, NoMemory>
        ensures gives { IfOk result (λ more. GivesPacket more self.old self.new out.new) }
        ensures same { OnErr result (self.new ≡ self.old) }
    {
        empty(alloc, out);
        self.part = arrived(&mut self.plan, self.part, steps);
        let Some(behind) = put_part(
            alloc,
            &self.plan,
            self.part,
            self.status,
            self.sequence,
            out,
        )?
        else {
            return Ok(false);
        };
        self.part = behind;
        self.sequence = self.sequence.wrapping_add(1);
        Ok(true)
    }
}

/// Empties a text, which keeps its memory.
fn empty(alloc: Global, text: &mut Text)
    ensures { text.new ≡ [] }
{
    let mut bytes = mem::replace(text, Text::from_vec(Vec::new(alloc))).into_vec();
    bytes.clear();
    *text = Text::from_vec(bytes);
}

/// The same place among the packets, once the plan has gone to the row that comes next, if one does.
fn arrived<L: Ledger>(plan: &mut Plan, part: Part, steps: &mut Steps<L>) -> Part
    requires { IsReadyAt part plan.old }
    ensures ready { IsReadyAt result plan.new }
    ensures same { (status : _) → payloads_at result plan.new status ≡ payloads_at part plan.old status }
    ensures arrived { result ≢ packet.Rows }
{
    match part {
        Part::Rows => {
            if plan.next(steps) {
                Part::Row
            } else {
                Part::End
            }
        }
        _ => part,
    }
}

/// Appends the packet that comes next, and answers what comes behind it; nothing where no packet comes.
fn put_part(
    alloc: Global,
    plan: &Plan,
    part: Part,
    status: u16,
    sequence: u8,
    out: &mut Text,
) -> Result<Option<Part>, NoMemory>
    requires ready { IsReadyAt part plan.now }
    requires arrived { part ≢ packet.Rows }
    ensures { IfOk result (PutsNext part plan.now status sequence out.old out.new) }
{
    match part {
        Part::Count => {
            put_count(alloc, plan.columns().len() as u16, sequence, out)?;
            Ok(Some(Part::Column(0)))
        }
        Part::Column(index) => put_column_or_end(alloc, plan, index, status, sequence, out),
        Part::Rows => unreachable!(),
        Part::Row => {
            put_row(alloc, plan, sequence, out)?;
            Ok(Some(Part::Rows))
        }
        Part::End => {
            put_eof(alloc, status, sequence, out)?;
            Ok(Some(Part::Nothing))
        }
        Part::Nothing => Ok(None),
    }
}

/// Appends the definition of a column, or behind the last one the EOF.
fn put_column_or_end(
    alloc: Global,
    plan: &Plan,
    index: usize,
    status: u16,
    sequence: u8,
    out: &mut Text,
) -> Result<Option<Part>, NoMemory>
    requires { IsReadyAt (packet.Column index) plan.now }
    ensures { IfOk result (PutsNext (packet.Column index) plan.now status sequence out.old out.new) }
{
    let columns = plan.columns();
    if index == columns.len() {
        put_eof(alloc, status, sequence, out)?;
        return Ok(Some(Part::Rows));
    }
    put_column(alloc, &columns[index], sequence, out)?;
    Ok(Some(Part::Column(index + 1)))
}

/// Appends the packet of the row on which a plan stands.
fn put_row(alloc: Global, plan: &Plan, sequence: u8, out: &mut Text) -> Result<(), NoMemory>
    requires few { length plan.now.columns ≤ 64 }
    requires on { IsSome plan.now.row }
    requires count { length (row_of plan.now) ≡ length plan.now.columns }
    requires fits { length (value_payload (row_of plan.now)) ≤ most_payload }
    ensures { OnOk result (out.new ≡ out.old ++ packets.packet sequence (value_payload (row_of plan.now))) }
{
    let mut packet = OpenPacket::begin(alloc, out)?;
    let written = put_cells(plan, &mut packet);
    packet.end(sequence, written, out)
}

/// Appends the values of the row on which a plan stands to the payload of a packet.
fn put_cells(plan: &Plan, packet: &mut OpenPacket) -> Result<(), NoMemory>
    requires few { length plan.now.columns ≤ 64 }
    requires on { IsSome plan.now.row }
    requires count { length (row_of plan.now) ≡ length plan.now.columns }
    ensures front { packet.new.front ≡ packet.old.front }
    ensures ok { OnOk result (packet.new.payload ≡ packet.old.payload ++ value_payload (row_of plan.now)) }
{
    for column in 0..plan.columns().len() as u8 {
        packet.put_cell(plan.cell(column))?;
    }
    Ok(())
}
