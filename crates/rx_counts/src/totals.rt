// The totals of the tree, after each of its changes.
ghost use Rattle.std.specs.Prelude.{◌≡◌, ◌+◌, ◌-◌, ◌<◌, ◌≤◌, ◌^◌};
ghost use Rattle.rx_counts.specs.Inside.Totalling.{fewer_scopes, more_tasks, dies, CanDie};

use crate::dying::Toll;
use rx_finish::Totals;
use rx_rules::Where;

/// A scope is released, and with it so many below it.
pub fn freed(totals: Totals, below: u32) -> Totals
    requires { below + 1 ≤ totals.scopes }
    ensures { result ≡ fewer_scopes (below + 1) totals }
{
    Totals {
        scopes: totals.scopes - 1 - below,
        ..totals
    }
}

/// A task is started, struck from birth or not.
pub fn started(totals: Totals, is_lost: bool, place: Where) -> Totals
    requires { (totals.live + 1 < 2 ^ 32) × (totals.travel + 1 < 2 ^ 32) }
    ensures { result ≡ more_tasks is_lost place totals }
{
    if is_lost {
        return totals;
    }
    match place {
        Where::At(_) => Totals {
            live: totals.live + 1,
            ..totals
        },
        Where::Travel { .. } => Totals {
            travel: totals.travel + 1,
            ..totals
        },
    }
}

/// A place dies.
pub fn died(totals: Totals, toll: Toll) -> Totals
    requires { CanDie toll totals }
    ensures { result ≡ dies toll totals }
{
    Totals {
        live: totals.live - toll.there,
        travel: totals.travel - (toll.all - toll.there),
        ..totals
    }
}
