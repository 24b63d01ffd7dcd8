//! The script of the workload.

ghost use Rattle.std.specs.Prelude.{◌≡◌, ◌++◌, ◌≤◌, codes, string_bytes, IfOk, OnOk, IsTrue};
ghost use Rattle.qc_sql.specs.declared.commands.Command.TheVariants as command;
ghost use Rattle.qc_model.specs.Workload as draws;
ghost use Rattle.qc_wire.specs.Commands.{can_be_read, command_text};
ghost use Rattle.qc_script.specs.WorkloadScript as script;
ghost use Rattle.qc_script.specs.WorkloadScript.{workload_script, session_commands, setup_commands, behind_session, sent};

use qc_model::reports::Script;
use qc_sql::commands::Command;
use qc_types::{NoMemory, Text, Texts};
use qc_wire::put_command;
use std::alloc::{AllocError, Global};

const SESSIONS: u32 = 4;

const DRAWS: u32 = 2000;

/// The keys of a session are its number times this, and more.
const KEYS: u32 = 1_000_000;

/// The generator of the draws.
#[derive(Drop)]
struct Generator {
    state: u64,
}

impl Generator {
    /// The next draw.
    fn draw(&mut self) -> u32
        ensures drawn { self.new.state ≡ draws.drawn self.old.state }
        ensures draw { result ≡ draws.draw self.old.state }
    {
        self.state = self
            .state
            .wrapping_mul(6_364_136_223_846_793_005)
            .wrapping_add(1_442_695_040_888_963_407);
        (self.state >> 33) as u32
    }
}

/// The script of the workload with this number: a setup part that creates the database `w` with the tables `a` and `b`, and four sessions of
/// 2000 statements each, which are drawn one after another from one generator that starts as the number. Each session writes rows of its own
/// keys alone. It takes time and memory linear in the script, which has 8008 commands.
pub fn workload(alloc: Global, number: u32) -> Result<Script, NoMemory>
    ensures { IfOk result (λ s. s ≡ workload_script number) }
{
    let mut generator = Generator {
        state: u64::from(number),
    };
    let mut sessions = Texts::new(alloc);
    for session in 1..=SESSIONS {
        sessions.push(session_input(alloc, session, &mut generator)?)?;
    }
    Ok(Script {
        setup: Some(setup_input(alloc)?),
        sessions,
    })
}

/// The packets of the setup part.
fn setup_input(alloc: Global) -> Result<Text, NoMemory>
    ensures { IfOk result (λ input. input ≡ sent setup_commands) }
{
    let mut input = Text::of(alloc, &[])?;
    put_query(alloc, b"CREATE DATABASE w", &mut input)?;
    put_init(alloc, &mut input)?;
    put_query(
        alloc,
        b"CREATE TABLE a (id BIGINT PRIMARY KEY, v BIGINT NOT NULL)",
        &mut input,
    )?;
    put_query(
        alloc,
        b"CREATE TABLE b (id BIGINT PRIMARY KEY, v BIGINT NOT NULL)",
        &mut input,
    )?;
    Ok(input)
}

/// The packets of a session, whose statements are the next draws.
fn session_input(alloc: Global, session: u32, generator: &mut Generator) -> Result<Text, NoMemory>
    requires { session ≤ 4 }
    ensures input { IfOk result (λ input. input ≡ sent (session_commands session generator.old.state)) }
    ensures drawn { OnOk result (generator.new.state ≡ behind_session generator.old.state) }
{
    let mut input = Text::of(alloc, &[])?;
    put_init(alloc, &mut input)?;
    for number in 1..=DRAWS {
        let statement = statement(alloc, session, number, generator.draw())?;
        put_query(alloc, statement.as_bytes(), &mut input)?;
    }
    Ok(input)
}

/// The statement of a session's draw, by the session's number and the draw's.
#[tactic(auto, unfolding(crate::specs::WorkloadScript::statement))]
fn statement(alloc: Global, session: u32, number: u32, draw: u32) -> Result<String, AllocError>
    requires { (session ≤ 4) × (number ≤ 2000) }
    ensures { IfOk result (λ text. string_bytes text ≡ script.statement session number draw) }
{
    let first = session * KEYS;
    let key = first + number;
    let value = draw % 1000;
    match draw % 8 {
        0 => format!(in alloc; "INSERT INTO a VALUES ({key}, {value})"),
        1 => format!(in alloc; "INSERT INTO b VALUES ({key}, {value})"),
        2 => format!(in alloc; "UPDATE a SET v = {value} WHERE id BETWEEN {first} AND {key}"),
        3 => String::from_str(alloc, "SELECT COUNT(*) FROM a"),
        4 => String::from_str(alloc, "SELECT SUM(v) FROM b"),
        5 => {
            let wanted = first + draw % 2000;
            format!(in alloc; "SELECT id, v FROM a WHERE id = {wanted}")
        }
        6 => String::from_str(alloc, "SELECT MAX(v) FROM a"),
        _ => String::from_str(alloc, "SELECT * FROM b ORDER BY v LIMIT 5"),
    }
}

/// Puts the packet that makes `w` the current database.
fn put_init(alloc: Global, input: &mut Text) -> Result<(), NoMemory>
    ensures { OnOk result (input.new ≡ input.old ++ command_text (command.InitDb (codes "w"))) }
{
    put(alloc, &Command::InitDb(Text::of(alloc, b"w")?), input)
}

/// Puts the packet of a statement.
fn put_query(alloc: Global, statement: &[u8], input: &mut Text) -> Result<(), NoMemory>
    ensures { OnOk result (input.new ≡ input.old ++ command_text (command.Query statement.now)) }
{
    put(alloc, &Command::Query(Text::of(alloc, statement)?), input)
}

/// Puts the packet of a command. None of the workload's is too long for one, so only memory can lack.
fn put(alloc: Global, command: &Command, input: &mut Text) -> Result<(), NoMemory>
    requires { IsTrue (can_be_read command.now) }
    ensures { OnOk result (input.new ≡ input.old ++ command_text command.now) }
{
    put_command(alloc, command, input).map_err(|_| NoMemory)
}
