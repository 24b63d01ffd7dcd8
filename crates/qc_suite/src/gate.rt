//! A gate that has the sessions take their steps in the order of a case's lines, or begin together.

use crate::cases::{Case, Step};
use crate::line::Line;
use crate::told::Told;
use qc_core::Server;
use qc_serve::{Gate, Moment};
use qc_turn::{Seat, Task};
use qc_types::NoMemory;
use std::sync::atomic::{AtomicBool, AtomicU64, Ordering};
use std::thread::yield_now;

/// The most loads of a wait.
const MOST_LOADS: u64 = 8_589_934_592;

/// After so many loads another thread may run.
const LOADS_AT_ONCE: u64 = 4_096;

/// A command of a session, or the next piece of its reply.
#[derive(Drop)]
struct Stop<'a> {
    step: Step<'a>,
    /// How many lines are to be taken before it.
    place: u64,
    /// What the seat did at the piece: 0 where it didn't come to it, 1 where it rested, 2 where it streamed, and 3 where it filled the entry with the serial.
    task: AtomicU64,
    serial: AtomicU64,
}

impl<'a> Stop<'a> {
    fn note(&self, task: Task) {
        let (kind, serial) = match task {
            Task::Rest => (1, 0),
            Task::Stream(serial) => (2, serial),
            Task::Fill(serial) => (3, serial),
        };
        self.serial.store(serial, Ordering::SeqCst);
        self.task.store(kind, Ordering::SeqCst);
    }

    fn is_passed(&self) -> bool {
        self.task.load(Ordering::SeqCst) != 0
    }

    /// Puts what was noted.
    fn put_task(&self, line: &mut Line) -> Result<(), NoMemory> {
        let serial = self.serial.load(Ordering::SeqCst);
        match self.task.load(Ordering::SeqCst) {
            1 => line.put("rest"),
            2 => line.put_number("stream ", serial),
            3 => line.put_number("fill ", serial),
            _ => line.put("no piece"),
        }
    }
}

/// The gate.
#[derive(Drop)]
pub struct CaseGate<'a> {
    stops: Vec<Stop<'a>>,
    /// So many sessions begin together.
    together: u64,
    /// How many lines are taken, or sessions have come.
    count: AtomicU64,
    met_limit: AtomicBool,
    /// Whether a reply had more or fewer pieces than its command has lines.
    misled: AtomicBool,
}

impl<'a> CaseGate<'a> {
    /// The gate of a case, with the lines of pieces or without.
    pub fn new(case: &Case<'a>, with_pieces: bool) -> Result<CaseGate<'a>, NoMemory> {
        let together = if case.is_together {
            u64::from(case.last_session())
        } else {
            0
        };
        Ok(CaseGate {
            stops: stops_of(case, with_pieces)?,
            together,
            count: AtomicU64::new(0),
            met_limit: AtomicBool::new(false),
            misled: AtomicBool::new(false),
        })
    }

    pub fn has_met_limit(&self) -> bool {
        self.met_limit.load(Ordering::SeqCst)
    }

    fn is_misled(&self) -> bool {
        self.misled.load(Ordering::SeqCst)
    }

    /// Compares what was seen of the pieces.
    pub fn compare(&self, told: &mut Told) -> Result<(), NoMemory> {
        if self.is_misled() {
            told.tell(b"a reply has more or fewer pieces than lines")?;
        }
        for stop in &self.stops {
            if stop.step.is_piece {
                let mut found = Line::new(told.alloc);
                stop.put_task(&mut found)?;
                let wanted = stop
                    .step
                    .wanted
                    .map_or(found.bytes(), |wanted| wanted.as_bytes());
                if !stop.is_passed() || found.bytes() != wanted {
                    told.tell_number("the task at the piece of line ", stop.step.line)?;
                    told.tell(found.bytes())?;
                }
            }
        }
        Ok(())
    }

    fn count(&self) -> u64 {
        self.count.load(Ordering::SeqCst)
    }

    fn note(&self) {
        let _before = self.count.fetch_add(1, Ordering::SeqCst);
    }

    /// A session's next line from a place on.
    fn next(&self, session: u8, from: u64) -> Option<&Stop<'a>> {
        self.stops
            .iter()
            .find(|stop| stop.step.session == session && stop.place >= from)
    }

    /// Waits until so many lines are taken, or sessions have come.
    fn wait(&self, wanted: u64) {
        for load in 0..MOST_LOADS {
            if self.count() >= wanted || self.is_misled() || self.has_met_limit() {
                return;
            }
            if load % LOADS_AT_ONCE == LOADS_AT_ONCE - 1 {
                yield_now();
            }
        }
        self.met_limit.store(true, Ordering::SeqCst);
    }

    /// A session comes to its next command, and has taken the line before, where there is one.
    fn stop_before(&self, session: u8, number: u64) {
        if number > 1 {
            self.note();
        }
        let from = if number > 1 { self.count() } else { 0 };
        match self.next(session, from) {
            Some(stop) if stop.step.is_piece => self.misled.store(true, Ordering::SeqCst),
            Some(stop) => self.wait(stop.place),
            None => {}
        }
    }

    /// A session has sent a piece of its reply. It goes on where no line of the reply has a piece.
    fn stop_between(&self, session: u8, task: Task) {
        let place = self.count();
        match self.next(session, place.wrapping_add(1)) {
            Some(stop) if stop.step.is_piece => {
                self.note();
                self.wait(stop.place);
                stop.note(task);
            }
            _ => {
                let is_piece = self
                    .next(session, place)
                    .is_some_and(|stop| stop.step.is_piece);
                if is_piece {
                    self.misled.store(true, Ordering::SeqCst);
                }
            }
        }
    }
}

impl<'a> Gate for CaseGate<'a> {
    fn pass(&self, at: &Seat<Server>, session: u8, moment: Moment) {
        if session == 0 {
            return;
        }
        match moment {
            Moment::Before(1) if self.together > 0 => {
                self.note();
                self.wait(self.together);
            }
            _ if self.stops.is_empty() => {}
            Moment::Before(number) => self.stop_before(session, number),
            Moment::Between(_) => self.stop_between(session, at.task()),
        }
    }
}

/// The lines of the sessions, where they have an order. COM_QUIT is waited for, and never taken.
fn stops_of<'a>(case: &Case<'a>, with_pieces: bool) -> Result<Vec<Stop<'a>>, NoMemory> {
    let mut stops = Vec::new(case.alloc);
    if case.is_together || case.last_session() < 2 && !(with_pieces && case.has_pieces()) {
        return Ok(stops);
    }
    let mut place = 0u64;
    for step in &case.steps {
        let is_taken = step.has_line() || with_pieces && step.is_piece;
        if step.session != 0 && (is_taken || step.text == "quit") {
            stops.push(Stop {
                step: *step,
                place,
                task: AtomicU64::new(0),
                serial: AtomicU64::new(0),
            })?;
            place = place.wrapping_add(u64::from(is_taken));
        }
    }
    Ok(stops)
}
