//! Replies, as packets.

ghost use Rattle.std.specs.Prelude.{◌≡◌, ◌≤◌, IfOk};
ghost use Rattle.qc_sql.specs.declared.replies.Reply.TheVariants as reply;
ghost use Rattle.qc_sql.specs.Packets.{packets};
ghost use Rattle.qc_laws.specs.sizes.Replies.{FitsError};
ghost use Rattle.qc_model.specs.Machine as machine;
ghost use Rattle.qc_parse.specs.Refusals.{as_meant};
ghost use Rattle.qc_statements.specs.Told.{IsTold};

use qc_parse::ParseRefusal;
use qc_sql::errors::{not_supported, syntax_error, too_many_tables};
use qc_types::{NoMemory, SqlError, Text};
use qc_wire::{put_err, put_ok};
use std::alloc::Global;

/// OK, with so many affected rows and these status flags.
pub fn ok_reply(alloc: Global, affected: u64, status: u16) -> Result<Text, NoMemory>
    ensures { IfOk result (λ bytes. bytes ≡ packets (reply.Ok affected status)) }
{
    let mut bytes = Text::of(alloc, &[])?;
    put_ok(alloc, affected, status, 1, &mut bytes)?;
    Ok(bytes)
}

/// An error, which fits a packet. The one error of this call is want of memory. Linear in the error's text.
pub fn error_reply(alloc: Global, error: &SqlError) -> Result<Text, NoMemory>
    requires { FitsError error.now }
    ensures { IfOk result (λ bytes. bytes ≡ packets (machine.refused error.now)) }
{
    let mut bytes = Text::of(alloc, &[])?;
    put_err(alloc, error, 1, &mut bytes)?;
    Ok(bytes)
}

/// The error that answers a text that is no statement.
pub fn fault_error(alloc: Global, refusal: &ParseRefusal) -> Result<SqlError, NoMemory>
    ensures error { IfOk result (λ e. e ≡ machine.fault_error (as_meant refusal.now)) }
    ensures fits { IsTold (as_meant refusal.now) → IfOk result FitsError }
{
    match refusal {
        ParseRefusal::Syntax(at) => syntax_error(alloc, u64::from(*at)),
        ParseRefusal::Unsupported(what) => not_supported(alloc, what.bytes()),
        ParseRefusal::TooManyTables => too_many_tables(alloc),
    }
}
