//! An entry of the same key is filled by another session.

ghost use Rattle.std.specs.Prelude.{◌≡◌, option_map, Some, IsSome};
ghost use Rattle.qc_model.specs.Choice as meant;
ghost use Rattle.qc_dir.specs.Directory.{entry_at};
ghost use Rattle.qc_dir.specs.declared.entries.Entry.{Entry};
ghost use Rattle.qc_turn.specs.Seats.{MayRelease};
ghost use Rattle.qc_core.specs.KeySpelling.{IsSame};

use crate::keys::find_entry;
use crate::server::Server;
use qc_turn::Held;

impl Server {
    /// Whether an entry that is there is complete.
    fn is_complete(&self, serial: u64) -> bool
        requires { IsSome (entry_at serial self.now.dir.entries) }
        ensures { (e : Entry) → entry_at serial self.now.dir.entries ≡ Some e → result ≡ e.complete }
    {
        let Some(entry) = self.entry(serial) else {
            unreachable!()
        };
        entry.complete
    }
}

/// The serial of the entry with this key that is still being filled, if any. Nothing changes, and it takes no memory. Costs the key's bytes, as far as hashes
/// spread.
pub fn rival(held: &mut Held<'_, Server>, key: &[u8]) -> Option<u64>
    requires stands { MayRelease held.old }
    ensures same { IsSame held.old held.new }
    ensures found { result ≡ option_map (λ entry. entry.serial) (meant.rival held.old.value.journal.events key.now) }
{
    let Some(serial) = find_entry(held, key) else {
        return None;
    };
    if held.value().is_complete(serial) {
        return None;
    }
    Some(serial)
}
