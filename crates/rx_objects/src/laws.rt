// Laws of contracts. They do nothing when they run.
ghost use Rattle.rx_objects.specs.Laws.{OthersSpare, LedgerOpFits, PlaceOpFits, NotedAreNamed, ObjectsOpen, HostMayAsk};
ghost use Rattle.rx_objects.specs.Ending.{HostIsTold, MeetingShows, MeetingHears, PlacesEnd, StampsBeforeDeath, BooksMakeRun};

/// A law: histories without entries are legal.
pub fn objects_open()
    ensures { ObjectsOpen }
{}

/// A law: where the holder of a ticket's task has appended nothing more, no new entry is of that task.
pub fn others_spare_tickets()
    ensures { OthersSpare }
{}

/// A law: an operation of the ledger's book that may be asked by what a pass has seen fits each history in which the book may make
/// the call.
pub fn ledger_op_fits()
    ensures { LedgerOpFits }
{}

/// A law: the host may ask for the root's release at any time.
pub fn host_may_ask()
    ensures { HostMayAsk }
{}

/// A law: an operation of a place's book that may be asked by what passes have seen fits each history in which the book may make the
/// call.
pub fn place_op_fits()
    ensures { PlaceOpFits }
{}

/// A law: where the notes that come with the root's release have all events that entries name, the histories of the places have them.
pub fn noted_are_named()
    ensures { NotedAreNamed }
{}

/// A law: where the host is told that the root is released, it has seen the whole history, and the notes that come with the answer
/// have all events that entries name.
pub fn host_is_told()
    ensures { HostIsTold }
{}

/// A law: a note that a place's pass has met stays met.
pub fn meeting_shows()
    ensures { MeetingShows }
{}

/// A law: a pass that has seen the root's release sees no more by a note.
pub fn meeting_hears()
    ensures { MeetingHears }
{}

/// A law: one place after another ends.
pub fn places_end()
    ensures { PlacesEnd }
{}

/// A law: no stamp of a place is above the number of its death, so its store may be closed with it.
pub fn stamps_before_death()
    ensures { StampsBeforeDeath }
{}

/// A law: the closed books of the ledger and of all places, with the stores of dead places closed, are those of a whole run.
pub fn books_make_run()
    ensures { BooksMakeRun }
{}
