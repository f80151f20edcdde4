//! The program `rx10-coordinator`: it reads requests as lines and writes replies as lines. docs/coordinator.md states each line. It
//! stands on rx_coordinator, which keeps the tree and answers requests, and on rx_lines, which reads lines and tells replies, and says what
//! holds of every session. `serve` is the whole of it over any source and sink, and its contract is the theorem; `serve_logged` is the same
//! with a log, a second sink. `main` makes the source and the sinks of what the system gives, and says the status.
#![tactic(auto)]

ghost use Rattle.std.specs.Prelude.{◌≤◌};

mod command;
mod desk;
mod file;
mod log;
mod received;
pub mod serve;
pub mod status;

use command::Command;
use rx_base::{NoMemory, RxWord, StdSink, StdSource};
use status::Status;
use std::io;
use std::process::ExitCode;

fn main(rt: HostRuntime) -> ExitCode {
    let status = match command::given(&rt) {
        Ok(Command::Serve { places, log: None }) => {
            let mut input = StdSource::over(rt.reader());
            let mut out = StdSink::over(io::writer(&rt));
            serve::serve(rt.alloc(), places, &mut input, &mut out)
        }
        Ok(
            Command::Serve {
                places,
                log: Some(name),
            },
        ) => serve_logged(&rt, places, &name),
        Ok(Command::Help) => serve::print(&mut StdSink::over(io::writer(&rt)), command::HELP),
        Ok(Command::Version) => serve::print(&mut StdSink::over(io::writer(&rt)), command::VERSION),
        Ok(Command::Usage) => Status::Usage,
        Err(NoMemory) => Status::NoMemory,
    };
    status.tell(&rt);
    ExitCode::from(status.exit())
}

// A session whose log is the file of this name.
fn serve_logged(rt: &HostRuntime, places: u8, name: &RxWord) -> Status
    requires { (1 ≤ places) × (places ≤ 16) }
{
    let Some(file) = file::open(rt, name.bytes()) else {
        return Status::NoLog;
    };
    let mut input = StdSource::over(rt.reader());
    let mut out = StdSink::over(io::writer(rt));
    let mut log = StdSink::over(file);
    serve::serve_logged(rt.alloc(), places, &mut input, &mut out, &mut log)
}
