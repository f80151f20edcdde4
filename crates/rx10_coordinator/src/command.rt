// The words of the command.
ghost use Rattle.std.specs.Prelude.{◌<◌, ◌≤◌, IfOk};
ghost use Rattle.rx10_coordinator.specs.Words.{IsCommand, IsSaid};

use rx_base::{NoMemory, RxWord};
use rx_fields::below;
use std::env::FillError;
use std::rt::Env;

/// What the words ask for.
#[derive(Drop)]
pub(crate) enum Command {
    /// A session that opens with so many places, and the name of its log's file.
    Serve { places: u8, log: Option<RxWord> },
    Help,
    Version,
    /// The words are no command.
    Usage,
}

/// What `--help` writes.
pub(crate) const HELP: &[u8] = b"rx10-coordinator [--places N] [--log FILE]

Keeps the tree of finishes of jobs that run elsewhere. It reads requests as lines from standard input, and writes replies as lines to
standard output. docs/coordinator.md states each line.

--places N    the session opens with places 0 to N - 1 (N from 1 to 16, and 1 where it is left out)
--log FILE    the line of each entry is written to FILE before its reply; FILE is made, or is there and has no bytes
--help        writes this text
--version     writes the version
";

/// What `--version` writes.
pub(crate) const VERSION: &[u8] = b"rx10-coordinator 1\n";

/// The command that the system gives.
pub(crate) fn given<R: Env + AllocGlobal>(rt: &R) -> Result<Command, NoMemory>
    ensures { IfOk result IsCommand }
{
    let Some(first) = word_at(rt, 1)? else {
        return Ok(Command::Serve {
            places: 1,
            log: None,
        });
    };
    if is_option(&first) {
        return session_given(rt);
    }
    if word_at(rt, 2)?.is_some() {
        return Ok(Command::Usage);
    }
    if first.bytes() == b"--help".as_slice() {
        return Ok(Command::Help);
    }
    if first.bytes() == b"--version".as_slice() {
        return Ok(Command::Version);
    }
    Ok(Command::Usage)
}

// Whether a word begins an option of a session.
fn is_option(word: &RxWord) -> bool {
    word.bytes() == b"--places".as_slice() || word.bytes() == b"--log".as_slice()
}

// The command that begins with an option of a session. There are one or two, each once.
fn session_given<R: Env + AllocGlobal>(rt: &R) -> Result<Command, NoMemory>
    ensures { IfOk result IsCommand }
{
    if word_at(rt, 5)?.is_some() {
        return Ok(Command::Usage);
    }
    let first = option_at(rt, 1)?;
    if word_at(rt, 3)?.is_none() {
        return Ok(session(first));
    }
    let second = option_at(rt, 3)?;
    Ok(full_session(first, second))
}

// What an option of a session says.
#[derive(Drop)]
enum Said {
    Places(u8),
    Log(RxWord),
    // It is none.
    Wrong,
}

// The option whose first word has this number.
fn option_at<R: Env + AllocGlobal>(rt: &R, i: usize) -> Result<Said, NoMemory>
    requires { i < 1000 }
    ensures { IfOk result IsSaid }
{
    let Some(word) = word_at(rt, i)? else {
        return Ok(Said::Wrong);
    };
    let Some(value) = word_at(rt, i + 1)? else {
        return Ok(Said::Wrong);
    };
    if word.bytes() == b"--log".as_slice() {
        return Ok(Said::Log(value));
    }
    if word.bytes() == b"--places".as_slice() {
        return Ok(places_of(&value));
    }
    Ok(Said::Wrong)
}

// How many places a word asks for.
fn places_of(word: &RxWord) -> Said
    ensures { IsSaid result }
{
    match below(word.bytes(), 17) {
        Some(n) => {
            if n == 0 {
                return Said::Wrong;
            }
            Said::Places(n as u8)
        }
        None => Said::Wrong,
    }
}

// A session with one option.
fn session(said: Said) -> Command
    requires { IsSaid said }
    ensures { IsCommand result }
{
    match said {
        Said::Places(places) => Command::Serve { places, log: None },
        Said::Log(name) => Command::Serve {
            places: 1,
            log: Some(name),
        },
        Said::Wrong => Command::Usage,
    }
}

// A session with both.
fn full_session(first: Said, second: Said) -> Command
    requires first { IsSaid first }
    requires second { IsSaid second }
    ensures { IsCommand result }
{
    match first {
        Said::Places(places) => with_log(places, second),
        Said::Log(name) => with_places(name, second),
        Said::Wrong => Command::Usage,
    }
}

// A session with so many places, and the option of the log.
fn with_log(places: u8, said: Said) -> Command
    requires { (1 ≤ places) × (places ≤ 16) }
    ensures { IsCommand result }
{
    match said {
        Said::Places(_) => Command::Usage,
        Said::Log(name) => Command::Serve {
            places,
            log: Some(name),
        },
        Said::Wrong => Command::Usage,
    }
}

// A session with a log of this name, and the option of the places.
fn with_places(name: RxWord, said: Said) -> Command
    requires { IsSaid said }
    ensures { IsCommand result }
{
    match said {
        Said::Places(places) => Command::Serve {
            places,
            log: Some(name),
        },
        Said::Log(_) => Command::Usage,
        Said::Wrong => Command::Usage,
    }
}

// The word of a number, whatever its bytes, or none where there are fewer words.
fn word_at<R: Env + AllocGlobal>(rt: &R, i: usize) -> Result<Option<RxWord>, NoMemory> {
    let mut room = 256;
    for _ in 0..usize::BITS {
        let mut buf = vec![in rt.alloc(); 0u8; room]?;
        match rt.arg(i, &mut buf) {
            Ok(len) => return Ok(Some(RxWord::from_bytes(rt.alloc(), &buf[..len])?)),
            Err(FillError::NotPresent) => return Ok(None),
            Err(FillError::TooLong) => room = room.saturating_mul(2),
        }
    }
    Err(NoMemory)
}
