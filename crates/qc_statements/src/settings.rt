//! What SET sets.

ghost use Rattle.std.specs.Prelude.{◌≡◌, true, false, Ok, OnErr, OnOk, is_ok, unwrap_or};
ghost use Rattle.qc_model.specs.Settings as settings;
ghost use Rattle.qc_model.specs.Settings.{set_to};
ghost use Rattle.qc_statements.specs.Statements.{switched};

use qc_lex::is_same_word;
use qc_sql::statements::Setting;
use qc_trx::{SessionState, switch};
use qc_types::{NoMemory, Or};
use std::alloc::Global;

/// Whether the variable is autocommit. Constant time.
pub fn is_autocommit(setting: &Setting) -> bool
    ensures { result ≡ settings.is_autocommit setting.now }
{
    match setting {
        Setting::Names(_) => false,
        Setting::Variable(name, _) => is_same_word(name.bytes(), b"autocommit"),
    }
}

/// Whether the value switches the variable on. Constant time.
pub fn switches_on(setting: &Setting) -> bool
    ensures { result ≡ unwrap_or (switched setting.now) false }
{
    match setting {
        Setting::Names(_) => false,
        Setting::Variable(_, value) => switch(value).unwrap_or(false),
    }
}

/// Sets a variable to a value that it takes. The one error is want of memory, and leaves the state as it was. Costs what `SessionState::set` costs.
pub fn put(alloc: Global, state: &mut SessionState, setting: &Setting) -> Result<(), NoMemory>
    requires { is_ok (set_to state.old.state setting.now) ≡ true }
    ensures set { OnOk result (Ok state.new.state ≡ set_to state.old.state setting.now) }
    ensures origin { state.new.origin ≡ state.old.origin }
    ensures err { OnErr result (state.new ≡ state.old) }
{
    match state.set(alloc, setting) {
        Ok(()) => Ok(()),
        Err(Or::Memory) => Err(NoMemory),
        Err(Or::Other(_)) => unreachable!(),
    }
}
