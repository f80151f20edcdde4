// Laws of what is due. They do nothing when they run.
ghost use Rattle.rx_kills.specs.Least.{DueIsLeast, NoneIsReached};

/// In a plan in ascending order the event that is due is the least by moment, joins before deaths, and by place.
pub fn due_is_least()
    ensures { DueIsLeast }
{}

/// In a plan in ascending order of which nothing is due, no event's moment is reached.
pub fn none_is_reached()
    ensures { NoneIsReached }
{}
