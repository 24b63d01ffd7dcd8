//! What a SELECT asks the cache.

ghost use Rattle.std.specs.Prelude.{◌≡◌, IfOk};
ghost use Rattle.qc_laws.specs.history.Answers.{CanBeKeyed};
ghost use Rattle.qc_model.specs.Session.{key_of_text};
ghost use Rattle.qc_statements.specs.Selects.{arrived_at, is_asked_for};
ghost use Rattle.qc_statements.specs.Sound.{IsFitState};

use qc_key::key_bytes;
use qc_lex::{head, trimmed};
use qc_rules::{Asked, asks};
use qc_sql::session::Flags;
use qc_trx::SessionState;
use qc_types::{NoMemory, Options, Text};
use std::alloc::Global;

/// Whether the cache is asked for a text, by these options and the session's cache type. Costs what `trimmed` and `head` of `qc_lex` cost.
pub fn asks_cache(options: &Options, state: &SessionState, text: &[u8]) -> bool
    ensures { result ≡ is_asked_for options.now state.now.state text.now }
{
    if options.size == 0 {
        return false;
    }
    match asks(head(trimmed(text)), state.kind()) {
        Asked::Yes => true,
        Asked::Off => false,
        Asked::No => false,
    }
}

/// The key of a SELECT's text, for a session in which it has arrived, at any place of a journal. The one error is want of memory. Linear in the text.
pub fn key(alloc: Global, state: &SessionState, text: &[u8]) -> Result<Text, NoMemory>
    requires { (journal : _) × IsFitState journal state.now }
    ensures key { (place : _) → IfOk result (λ key. key ≡ key_of_text (arrived_at place state.now.state) text.now) }
    ensures keyed { (place : _) → CanBeKeyed (arrived_at place state.now.state) }
{
    let now = state.flags();
    let flags = Flags {
        in_trans: now.in_trans || !now.autocommit,
        ..now
    };
    key_bytes(alloc, &flags, state.db(), trimmed(text))
}
