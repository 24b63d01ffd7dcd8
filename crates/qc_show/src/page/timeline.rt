//! A timeline of sessions and entries, as SVG.

use crate::fault::Fault;
use crate::lives::{End, Life, Lives};
use crate::plain::Within;
use crate::sessions::SessionName;
use crate::words::{Seen, put_event};
use qc_model::events::{Event, How, Who};
use qc_sql::commands::Command;
use qc_types::NoMemory;
use std::alloc::Global;
use std::io::Write;

/// The most events that are drawn.
const MOST_EVENTS: usize = 2000;

/// The most lanes of entries.
const MOST_LANES: usize = 60;

/// The width of an event, and the height of a row.
const STEP: u64 = 10;

const ROW: u64 = 18;

/// What stands to the left of the first event, and above the first row.
const LEFT: u64 = 90;

const TOP: u64 = 24;

/// Where an entry is drawn: the row of its lane, which is none where no lane was free.
#[derive(Clone, Copy)]
struct Lane<'a> {
    life: Life<'a>,
    row: Option<u64>,
}

/// Where the parts of a timeline stand.
#[derive(Clone, Copy)]
struct Frame {
    /// How many events are drawn.
    events: u64,
    /// The sessions up to this one have a row each, from the setup part on.
    last_session: u8,
    lanes: u64,
}

/// Puts the timeline of the first events. Each session has a row with a mark for each of its events. Below them each entry has a bar from its
/// beginning to its end. A line leads from each hit to its entry, and from each commit or reset to the ends of the entries that it removed.
pub fn put_timeline<W: Write>(
    alloc: Global,
    out: &mut W,
    events: &[Event],
    decided: &[Option<&Command>],
) -> Result<(), Fault> {
    out.write_all(b"<h2>Timeline</h2>\n")?;
    let drawn = events.get(..MOST_EVENTS).unwrap_or(events);
    if drawn.len() < events.len() {
        writeln!(
            out,
            "<p>Of {} events the first {MOST_EVENTS} are drawn.</p>",
            events.len()
        )?;
    }
    if drawn.is_empty() {
        out.write_all(b"<p>There were no events.</p>\n")?;
        return Ok(());
    }
    let lives = Lives::of(alloc, drawn)?;
    let lanes = lanes_of(alloc, lives.all())?;
    let frame = Frame {
        events: drawn.len() as u64,
        last_session: last_session(drawn),
        lanes: count_lanes(lanes.as_slice()),
    };
    put_missing(out, lanes.as_slice())?;
    put_legend(out)?;
    put_open(out, frame)?;
    put_rows(out, frame)?;
    put_bars(out, frame, lanes.as_slice())?;
    put_marks(alloc, out, frame, lanes.as_slice(), drawn, decided)?;
    out.write_all(b"</svg>\n</div>\n")?;
    Ok(())
}

// ---- lanes

/// The entries, each in the first lane whose last entry ended before it began.
fn lanes_of<'a>(alloc: Global, lives: &[Life<'a>]) -> Result<Vec<Lane<'a>>, NoMemory> {
    let mut ends: Vec<u64> = Vec::new(alloc);
    let mut lanes = Vec::new(alloc);
    for life in lives {
        let row = free_lane(&mut ends, life)?;
        lanes.push(Lane { life: *life, row })?;
    }
    Ok(lanes)
}

fn free_lane(ends: &mut Vec<u64>, life: &Life<'_>) -> Result<Option<u64>, NoMemory> {
    let end = match life.end {
        Some(end) => end.place(),
        None => u64::MAX,
    };
    if let Some(row) = ends.iter().position(|last| *last < life.begun) {
        if let Some(last) = ends.get_mut(row) {
            *last = end;
        }
        return Ok(Some(row as u64));
    }
    let row = ends.len();
    if row >= MOST_LANES {
        return Ok(None);
    }
    ends.push(end)?;
    Ok(Some(row as u64))
}

fn count_lanes(lanes: &[Lane<'_>]) -> u64 {
    let mut count = 0;
    for lane in lanes {
        if let Some(row) = lane.row {
            count = count.max(row.saturating_add(1));
        }
    }
    count
}

/// Says how many entries have no lane.
fn put_missing<W: Write>(out: &mut W, lanes: &[Lane<'_>]) -> Result<(), Fault> {
    let missing = lanes.iter().filter(|lane| lane.row.is_none()).count();
    if missing > 0 {
        writeln!(
            out,
            "<p>More than {MOST_LANES} entries stood at once; {missing} of them are left out of the drawing.</p>"
        )?;
    }
    Ok(())
}

// ---- the frame

fn last_session(events: &[Event]) -> u8 {
    let mut last = 0;
    for event in events {
        if let Some(who) = decider(event) {
            last = last.max(who.session);
        }
    }
    last
}

/// The session that decided an event, and that event's number.
fn decider(event: &Event) -> Option<Who> {
    match event {
        Event::Run { who, .. } | Event::Commit { who, .. } => Some(*who),
        Event::Reset { who } | Event::Flush { who } => Some(*who),
        Event::Done { .. } | Event::Gone { .. } | Event::Prune { .. } => None,
    }
}

/// The middle of an event, by its place.
fn across(place: u64) -> u64 {
    place.saturating_mul(STEP).saturating_add(LEFT)
}

/// The middle of a session's row.
fn down(session: u8) -> u64 {
    u64::from(session) * ROW + TOP
}

/// The middle of a lane.
fn down_lane(frame: Frame, row: u64) -> u64 {
    row.saturating_add(2)
        .saturating_mul(ROW)
        .saturating_add(down(frame.last_session))
}

fn put_legend<W: Write>(out: &mut W) -> Result<(), Fault> {
    out.write_all(
        b"<p>Events from left to right, a row for each session. Green: a hit, with a line to its entry. Blue: a start. Yellow: a SELECT outside the cache. Red: a commit, with lines to the entries that it removed. Violet: the cache emptied or its blocks moved. Grey: any other command. Below, each entry from its beginning to its end, pale while it is filled; a yellow end is a prune, a grey one an entry that was given up.</p>\n",
    )?;
    Ok(())
}

fn put_open<W: Write>(out: &mut W, frame: Frame) -> Result<(), Fault> {
    let width = across(frame.events.saturating_add(2));
    let height = down_lane(frame, frame.lanes);
    writeln!(
        out,
        "<div class=\"timeline\">\n<svg xmlns=\"http://www.w3.org/2000/svg\" width=\"{width}\" height=\"{height}\" role=\"img\">"
    )?;
    Ok(())
}

fn put_rows<W: Write>(out: &mut W, frame: Frame) -> Result<(), Fault> {
    let right = across(frame.events.saturating_add(1));
    for session in 0..=frame.last_session {
        let name = SessionName(session);
        let y = down(session);
        let text_y = y.saturating_add(4);
        writeln!(
            out,
            "<line class=\"lane\" x1=\"{LEFT}\" y1=\"{y}\" x2=\"{right}\" y2=\"{y}\"/><text class=\"label\" x=\"4\" y=\"{text_y}\">{name}</text>"
        )?;
    }
    Ok(())
}

// ---- entries

fn put_bars<W: Write>(out: &mut W, frame: Frame, lanes: &[Lane<'_>]) -> Result<(), Fault> {
    for lane in lanes {
        if let Some(row) = lane.row {
            put_bar(out, frame, &lane.life, row)?;
        }
    }
    Ok(())
}

fn put_bar<W: Write>(out: &mut W, frame: Frame, life: &Life<'_>, row: u64) -> Result<(), Fault> {
    let end = match life.end {
        Some(end) => end.place(),
        None => frame.events.saturating_add(1),
    };
    let middle = life.complete.unwrap_or(end);
    put_part(out, frame, "filling", row, life.begun, middle)?;
    put_part(out, frame, "entry", row, middle, end)?;
    let serial = life.serial;
    let x = across(life.begun).saturating_add(3);
    let y = down_lane(frame, row).saturating_add(4);
    writeln!(
        out,
        "<text class=\"label\" x=\"{x}\" y=\"{y}\">{serial}</text>"
    )?;
    match life.end {
        Some(End::Pruned { place, .. }) => put_end_mark(out, frame, "prunes", row, place),
        Some(End::Gone { place, .. }) => put_end_mark(out, frame, "gone", row, place),
        Some(End::Changed { place, session } | End::Reset { place, session }) => {
            put_line(out, "removes", place, down(session), down_lane(frame, row))
        }
        None => Ok(()),
    }
}

fn put_part<W: Write>(
    out: &mut W,
    frame: Frame,
    class: &str,
    row: u64,
    from: u64,
    to: u64,
) -> Result<(), Fault> {
    if from < to {
        let x = across(from);
        let y = down_lane(frame, row).saturating_sub(6);
        let width = across(to).saturating_sub(x);
        writeln!(
            out,
            "<rect class=\"{class}\" x=\"{x}\" y=\"{y}\" width=\"{width}\" height=\"12\"/>"
        )?;
    }
    Ok(())
}

fn put_end_mark<W: Write>(
    out: &mut W,
    frame: Frame,
    class: &str,
    row: u64,
    place: u64,
) -> Result<(), Fault> {
    let x = across(place);
    let y = down_lane(frame, row);
    writeln!(
        out,
        "<circle class=\"{class}\" cx=\"{x}\" cy=\"{y}\" r=\"5\"/>"
    )?;
    Ok(())
}

// ---- events

fn put_marks<W: Write>(
    alloc: Global,
    out: &mut W,
    frame: Frame,
    lanes: &[Lane<'_>],
    events: &[Event],
    decided: &[Option<&Command>],
) -> Result<(), Fault> {
    let mut lives = Lives::new(alloc);
    for (index, event) in events.iter().enumerate() {
        let place = index as u64 + 1;
        let ended = lives.take(place, event)?;
        if let Event::Run {
            who,
            how: How::Hit(serial),
        } = event
        {
            put_hit_line(
                out,
                frame,
                lanes,
                lives.index_of(*serial),
                place,
                who.session,
            )?;
        }
        if let Some(who) = decider(event) {
            let seen = Seen {
                event,
                ended: ended.as_slice(),
                command: decided.get(index).copied().flatten(),
            };
            put_mark(out, &lives, place, who.session, seen)?;
        }
    }
    Ok(())
}

/// Puts a line from a hit to its entry, where that has a lane.
fn put_hit_line<W: Write>(
    out: &mut W,
    frame: Frame,
    lanes: &[Lane<'_>],
    entry: Option<usize>,
    place: u64,
    session: u8,
) -> Result<(), Fault> {
    let Some(index) = entry else {
        return Ok(());
    };
    match lanes.get(index) {
        Some(Lane { row: Some(row), .. }) => put_line(
            out,
            "hits",
            place,
            down(session),
            down_lane(frame, *row),
        ),
        _ => Ok(()),
    }
}

/// Puts a line at an event, from one height to another.
fn put_line<W: Write>(
    out: &mut W,
    class: &str,
    place: u64,
    from: u64,
    to: u64,
) -> Result<(), Fault> {
    let x = across(place);
    writeln!(
        out,
        "<line class=\"{class}\" x1=\"{x}\" y1=\"{from}\" x2=\"{x}\" y2=\"{to}\"/>"
    )?;
    Ok(())
}

/// Puts the mark of an event, which is told in words where a pointer rests on it.
fn put_mark<W: Write>(
    out: &mut W,
    lives: &Lives<'_>,
    place: u64,
    session: u8,
    seen: Seen<'_>,
) -> Result<(), Fault> {
    let x = across(place).saturating_sub(3);
    let y = down(session).saturating_sub(5);
    let class = class_of(seen.event);
    write!(
        out,
        "<rect class=\"{class}\" x=\"{x}\" y=\"{y}\" width=\"7\" height=\"10\"><title>{place}: "
    )?;
    put_event(out, Within::Html, lives, seen)?;
    out.write_all(b"</title></rect>\n")?;
    Ok(())
}

fn class_of(event: &Event) -> &'static str {
    match event {
        Event::Run { how, .. } => class_of_run(how),
        Event::Commit { .. } => "commit",
        Event::Reset { .. } | Event::Flush { .. } => "clear",
        Event::Done { .. } | Event::Gone { .. } | Event::Prune { .. } => "other",
    }
}

fn class_of_run(how: &How) -> &'static str {
    match how {
        How::Hit(_) => "hit",
        How::Start { .. } => "start",
        How::Plain(_) => "plain",
        How::Other | How::Status(_) | How::Conflict { .. } => "other",
    }
}
