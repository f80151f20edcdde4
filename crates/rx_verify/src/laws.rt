// A law of players. It does nothing when it runs.
ghost use Rattle.rx_verify.specs.Players.{PlayersStay};

/// A death, a join and the root's release change no player.
pub fn players_stay()
    ensures { PlayersStay }
{}
