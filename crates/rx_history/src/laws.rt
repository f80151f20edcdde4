// A law of the order of kills. It does nothing when it runs.
ghost use Rattle.rx_history.specs.KillOrder.{OneOrder};

/// Kills stand in order in one list alone.
pub fn kills_have_one_order()
    ensures { OneOrder }
{}
