// The deaths and the joins that are due.
ghost use Rattle.std.specs.Prelude.{◌≡◌, ◌<◌, ◌-◌, ◌^◌, length, IfOk, OnOk};
ghost use Rattle.rx_chronicle.specs.Requests.{MayAskEntry};
ghost use Rattle.rx_ledger.specs.Inside.Doing.{MadeDue};

use rx_base::NoMemory;
use rx_chronicle::Chronicle;
use rx_finish::FinishLedger;

/// Makes all deaths and joins that are due, in the order of the plan, and room for one entry more, of which it gives the number.
pub(crate) fn make_due<L: FinishLedger>(chronicle: &mut Chronicle<L>) -> Result<u32, NoMemory>
    requires few { length chronicle.old.entries < 2 ^ 32 }
    ensures made { MadeDue chronicle.old chronicle.new }
    ensures few { length chronicle.new.entries < 2 ^ 32 }
    ensures number { IfOk result (λ n. (n ≡ length chronicle.new.entries) × (n < 2 ^ 32 - 1)) }
    ensures ready { OnOk result (MayAskEntry chronicle.new) }
{
    loop {
        let at = chronicle.room()?;
        let Some(due) = chronicle.due(at) else {
            return Ok(at);
        };
        chronicle.pass(due, at);
    }
}
