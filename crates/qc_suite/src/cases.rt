//! Cases.

use crate::answers::Form;
use qc_types::NoMemory;
use std::alloc::Global;

/// A command of a session, or the next piece of its reply, and what should come of it.
#[derive(Clone, Copy)]
pub struct Step<'a> {
    /// The number of its line in the file.
    pub line: u64,
    /// 1 to 64, or 0 for the setup part.
    pub session: u8,
    pub text: &'a str,
    pub is_piece: bool,
    /// The answer and the event, or the task at a piece.
    pub wanted: Option<&'a str>,
}

impl<'a> Step<'a> {
    /// Whether it has a line in the report. COM_QUIT has none, nor have bytes without an answer.
    pub fn has_line(&self) -> bool {
        let may_lack = self.text == "quit" || self.text.starts_with("raw ");
        !self.is_piece && (self.wanted.is_some() || !may_lack)
    }
}

/// What indented lines are: what came of steps, or a text of the case.
#[derive(Clone, Copy, PartialEq, Eq)]
pub enum Block {
    Steps,
    Script,
    Report,
    /// What the run writes.
    Written,
    /// What the view shows.
    Shown,
    /// What words or a status are told in.
    Told,
    /// What is told because it was asked for.
    Asked,
}

/// The lines of a block.
#[derive(Drop)]
pub struct Lines {
    pub block: Block,
    pub bytes: Vec<u8>,
}

/// A text that stands so many times in what is shown or told.
#[derive(Clone, Copy)]
pub struct Part<'a> {
    pub times: usize,
    pub text: &'a str,
}

/// A case: what is played, and what should come of it.
#[derive(Drop)]
pub struct Case<'a> {
    pub alloc: Global,
    pub name: &'a str,
    pub words: Vec<&'a str>,
    /// In what form answers stand there. Where they are whole, so do the events.
    pub form: Form,
    /// Whether all sessions begin at once.
    pub is_together: bool,
    /// Whether the last line of the script or the report has no end.
    pub has_open_end: bool,
    pub steps: Vec<Step<'a>>,
    pub texts: Vec<Lines>,
    pub parts: Vec<Part<'a>>,
    pub status: Option<u8>,
    /// Why the script or the report is refused.
    pub refused: Option<&'a str>,
    /// The most bytes that a read gives, in one run after another.
    pub pieces: Vec<u64>,
    /// The reads that fail, one in each run.
    pub reads: Vec<u64>,
    pub puts: Vec<u64>,
    /// Other words with which each reply is the same.
    pub same_on: Vec<&'a str>,
    /// The lines that mean nothing.
    pub bad_lines: Vec<u64>,
}

impl<'a> Case<'a> {
    /// A case of which nothing but its head is known.
    pub fn new(alloc: Global, head: &'a str) -> Result<Case<'a>, NoMemory> {
        let (name, line) = match head.strip_suffix(" |") {
            Some(name) => (name, ""),
            None => head.split_once(" | ").unwrap_or((head, "run")),
        };
        let mut words = Vec::new(alloc);
        if !line.is_empty() {
            words.extend(line.split(' '))?;
        }
        Ok(Case {
            alloc,
            name,
            words,
            form: Form::Whole,
            is_together: false,
            has_open_end: false,
            steps: Vec::new(alloc),
            texts: Vec::new(alloc),
            parts: Vec::new(alloc),
            status: None,
            refused: None,
            pieces: Vec::new(alloc),
            reads: Vec::new(alloc),
            puts: Vec::new(alloc),
            same_on: Vec::new(alloc),
            bad_lines: Vec::new(alloc),
        })
    }

    /// Whether the first word is this one.
    pub fn asks_for(&self, word: &str) -> bool {
        self.words.first().is_some_and(|first| *first == word)
    }

    /// The lines of a block, where the case has it.
    pub fn text(&self, block: Block) -> Option<&[u8]> {
        let lines = self.texts.iter().find(|lines| lines.block == block)?;
        Some(lines.bytes.as_slice())
    }

    fn has(&self, block: Block) -> bool {
        self.text(block).is_some()
    }

    /// The number of the last session.
    pub fn last_session(&self) -> u8 {
        self.steps
            .iter()
            .map(|step| step.session)
            .max()
            .unwrap_or(0)
    }

    pub fn has_pieces(&self) -> bool {
        self.steps.iter().any(|step| step.is_piece)
    }

    /// Whether it says how the call ends.
    pub fn has_outcome(&self) -> bool {
        self.status.is_some() || self.has(Block::Written)
    }

    /// What of it can't be together, or is missing.
    pub fn misfit(&self) -> Option<&'static str> {
        let has_failing = !self.reads.is_empty() || !self.puts.is_empty();
        let is_played = !self.steps.is_empty() || self.has(Block::Script);
        let is_shown = self.has(Block::Shown) || self.has(Block::Asked) || !self.parts.is_empty();
        if !self.steps.is_empty() && (self.has(Block::Script) || self.asks_for("show")) {
            Some("commands beside a script or a view")
        } else if self.asks_for("show") {
            self.misfit_of_view(has_failing)
        } else if is_shown || self.has(Block::Report) {
            Some("a run has no view")
        } else if self.is_together && self.has_pieces() {
            Some("pieces of sessions that begin together")
        } else if !self.reads.is_empty() && !(self.puts.is_empty() && self.same_on.is_empty()) {
            Some("reads that fail beside puts or other words")
        } else if !(is_played || has_failing || self.has_outcome() || self.has(Block::Told)) {
            Some("nothing is played")
        } else {
            None
        }
    }

    fn misfit_of_view(&self, has_failing: bool) -> Option<&'static str> {
        let is_ended = self.has_outcome() && self.refused.is_none();
        let has_runs = has_failing || !self.pieces.is_empty() || !self.same_on.is_empty();
        if is_ended || has_runs || self.is_together {
            Some("a view is no run")
        } else if self.has(Block::Report) == (self.has(Block::Told) || self.has(Block::Asked)) {
            Some("a view has a report, or something is told")
        } else {
            None
        }
    }
}
