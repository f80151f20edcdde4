// Any request.
ghost use Rattle.std.specs.Prelude.{ℕ, List};
ghost use Rattle.rx_rules.specs.declared.entries.Entry.{Entry};
ghost use Rattle.rx_coordinator.specs.Stands.{StandsAfter, IsReplyTo};

use crate::coordinator::Coordinator;
use crate::requests::{Answer, Request};

impl Coordinator {
    /// Answers a request. One that may not be made changes nothing.
    pub fn ask(&mut self, request: Request) -> Answer
        requires { (p : ℕ) × (es : List Entry) × StandsAfter self.old p es }
        ensures { (p : ℕ) (es : List Entry) → StandsAfter self.old p es → IsReplyTo p es request result (StandsAfter self.new p) }
    {
        match request {
            Request::Open { task } => self.open_finish(task),
            Request::At { task, to } => self.call(task, to),
            Request::Spawn { task, to } => self.spawn(task, to),
            Request::Send { task, to } => self.send(task, to),
            Request::Arrive { task } => self.arrive(task),
            Request::Wait { task, thrown } => self.wait(task, thrown),
            Request::Release { task } => self.release(task),
            Request::End { task, thrown } => self.end(task, thrown),
            Request::Death { place } => self.die(place),
            Request::Join => self.join(),
            Request::Root => self.release_root(),
        }
    }
}
