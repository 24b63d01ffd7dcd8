//! What a session keeps of its answered commands.

ghost use Rattle.std.specs.Prelude.{◌≡◌, ◌+◌, ◌<◌, ◌≤◌, [], ◌∷◌, ◌++◌, OnOk};

use qc_model::reports::Word;
use qc_types::NoMemory;
use std::alloc::Global;
use std::marker::Model;

/// A command that was answered.
#[derive(Clone, Copy, Debug, PartialEq, Eq)]
pub struct Logged {
    /// The place of its event in the journal, or where it has none that of the line before, which is 0 for a first one.
    pub place: u64,
    /// How its reply came about.
    pub how: Word,
}

/// The answered commands of a session, in their order. Contracts see them, and for how many more there is room.
#[derive(Drop)]
pub struct Log {
    lines: Vec<Logged>,
}

impl Model for Log {
    ghost use Rattle.std.specs.Prelude.{◌-◌, vec_len, vec_capacity};
    ghost use Rattle.qc_serve.specs.Logs.{Lines};

    ghost Value = { Lines };

    ghost view = { λ l. record { lines = l.lines.items; room = vec_capacity l.lines - vec_len l.lines } };
}

impl Log {
    ghost use Rattle.qc_serve.specs.Logs.{DropsLocal};

    /// No commands. Takes no memory yet.
    pub(crate) fn new(alloc: Global) -> Log
        ensures { result.lines ≡ [] }
    {
        Log {
            lines: Vec::new(alloc),
        }
    }

    /// The commands.
    pub fn lines(&self) -> &[Logged]
        ensures { result.now ≡ self.now.lines }
    {
        self.lines.as_slice()
    }

    /// Makes room for one more. The one error is want of memory, and then all is as before.
    pub(crate) fn reserve(&mut self) -> Result<(), NoMemory>
        ensures same { self.new.lines ≡ self.old.lines }
        ensures room { OnOk result (0 < self.new.room) }
    {
        self.lines.reserve(1)?;
        Ok(())
    }

    /// Puts one at the end.
    pub(crate) fn push(&mut self, line: Logged)
        requires { 0 < self.old.room }
        ensures lines { self.new.lines ≡ self.old.lines ++ line ∷ [] }
        ensures room { self.old.room ≡ self.new.room + 1 }
    {
        self.lines.push_reserved(line);
    }

    /// Takes the last line out where its command has no event. Where memory lacked for its reply, or a put failed, it stands nowhere.
    pub(crate) fn drop_local(&mut self)
        ensures { DropsLocal self.old.lines self.new.lines }
    {
        if let Some(line) = self.lines.last()
            && line.how == Word::Local
        {
            let _ = self.lines.pop();
        }
    }
}
