//! The program. `rx10` of rx_program is the whole of it over any source, sink, runtime and gate, and its contract is the theorem. `main`
//! makes the words, the source and the sink of what the system gives, and says the status.
#![tactic(auto)]

mod words;

use rx_base::{NoGate, StdSink, StdSource};
pub use rx_program::{Status, rx10, rx10_step};
use std::io;
use std::process::ExitCode;

fn main(rt: HostRuntime) -> ExitCode {
    let status = match words::given(&rt) {
        Ok(words) => {
            let mut input = StdSource::over(rt.reader());
            let mut out = StdSink::over(io::writer(&rt));
            rx10(&rt, rt.alloc(), &words, &mut input, &mut out, &NoGate)
        }
        Err(_) => Status::NoMemory,
    };
    status.tell(&rt);
    ExitCode::from(status.exit())
}
