// The entry of a task.
ghost use Rattle.std.specs.Prelude.{◌≡◌, ◌<◌};
ghost use Rattle.rx_rules.specs.declared.entries.Entry.TheVariants.{Step};
ghost use Rattle.rx_chronicle.specs.Requests.{with_entry};

use rx_base::{Batch, Path, TaskId};
use rx_history::History;
use rx_rules::{Act, Entry};
use std::alloc::Global;

/// Appends the act of a task with its batch, in whose place an empty one is left. It takes no memory.
pub(crate) fn add(history: &mut History, alloc: Global, task: TaskId, act: Act, batch: &mut Batch)
    requires { 0 < history.old.spare }
    ensures { history.new ≡ with_entry history.old (Step task act batch.old) }
{
    let batch = std::mem::replace(batch, Batch::open(alloc));
    history.add(Entry::Step { task, act, batch });
}

/// The path, in whose place an empty one is left. It takes no memory.
pub(crate) fn taken(path: &mut Path, alloc: Global) -> Path
    ensures { result ≡ path.old }
{
    std::mem::replace(path, Path::open(alloc))
}
