// The list of all that was shown, which exists for contracts alone, and the seats that have seen beginnings of it.
ghost use Rattle.std.specs.Prelude.{◌≡◌, true, [], ◌∷◌, IfOk};
ghost use mathlib.Core.List.{IsPrefix};
ghost use Rattle.rx_monitor.specs.Inside.ShownLists.{opening_view, noted, grown, met, settled};

use crate::summary::Summary;
use atomic_table::{Join, Play, Seat, Split, Table, TableRule};
use std::alloc::{AllocError, Global};
use std::collections::LinkedList;

/// What one seat knows. No value of it is made.
pub struct View {
    /// Whether it is the seat that has the whole list.
    pub marked: bool,
    /// A beginning of the list.
    pub seen: LinkedList<Summary>,
    /// The same, as the seat that was joined last had it.
    pub also: LinkedList<Summary>,
}

// The rule: each seat has seen a beginning of one list, and the one with the mark has seen it whole.
pub struct Law;

impl TableRule<Summary, View, ()> for Law {
    ghost use Rattle.rx_monitor.specs.Inside.ShownLists.{ListKept, opening_view};

    ghost holds = { λ _. ListKept };

    ghost first = { λ _. opening_view };
}

// The summary that is announced joins the list.
pub struct Grow;

impl Play<Summary, View> for Grow {
    ghost use Rattle.rx_monitor.specs.Inside.ShownLists.{Grows};

    ghost then = { Grows };
}

// The seat has the longer of the two lists that were joined.
pub struct Settle;

impl Play<Summary, View> for Settle {
    ghost use Rattle.rx_monitor.specs.Inside.ShownLists.{Settles};

    ghost then = { Settles };
}

// A note of what the seat has seen.
pub struct Noted;

impl Split<View> for Noted {
    ghost use Rattle.rx_monitor.specs.Inside.ShownLists.{noted};

    ghost left = { λ v. v };

    ghost right = { noted };
}

// A seat takes in what another has seen.
pub struct Meets;

impl Join<View> for Meets {
    ghost use Rattle.rx_monitor.specs.Inside.ShownLists.{met, blank};

    ghost both = { met };

    ghost spent = { blank };
}

/// One seat at the list. It has no bytes.
pub type ListSeat = Seat<Summary, View>;

/// The list of all that was shown. Its one word stays 0: a step on it is the moment at which a list grows.
#[derive(Drop)]
pub struct ShownList {
    table: Table<Summary, View, (), Law, Global>,
    ghost one_word: { table.shared.table_id.words ≡ 1 },
}

impl ShownList {
    /// An empty list, and the seat with the mark.
    pub fn open(alloc: Global) -> Result<(ShownList, ListSeat), AllocError>
        ensures { IfOk result (λ t. (t.1.table_id ≡ t.0.table.shared.table_id) × (t.1.me ≡ (opening_view, []))) }
    {
        let (table, seat) = Table::of_words(alloc, &[0], &())?;
        Ok((ShownList { table }, seat))
    }

    /// Adds a summary to the list.
    pub fn append(&self, mark: &mut ListSeat, summary: &Summary)
        requires { (mark.old.table_id ≡ self.now.table.shared.table_id) × (mark.old.me.0.marked ≡ true) }
        ensures { (mark.new.table_id ≡ mark.old.table_id) × (mark.new.me ≡ (grown mark.old.me.0 summary.now, mark.old.me.1)) }
    {
        self.table
            .shared
            .compare_exchange_with::<Grow>(mark, 0, 0, 0, summary);
    }

    /// A note of what the seat has seen.
    pub fn note(&self, seat: &mut ListSeat) -> ListSeat
        requires { seat.old.table_id ≡ self.now.table.shared.table_id }
        ensures same { (seat.new.table_id ≡ seat.old.table_id) × (seat.new.me ≡ seat.old.me) }
        ensures note { (result.table_id ≡ seat.old.table_id) × (result.me ≡ (noted seat.old.me.0, [])) }
    {
        self.table.shared.split_seat::<Noted>(seat)
    }

    /// The seat has seen the longer of the two lists, and both begin it.
    pub fn meet(&self, seat: &mut ListSeat, note: ListSeat)
        requires own { (seat.old.table_id ≡ self.now.table.shared.table_id) × (note.table_id ≡ self.now.table.shared.table_id) }
        requires note { note.me.1 ≡ [] }
        ensures same { seat.new.table_id ≡ seat.old.table_id }
        ensures met { seat.new.me ≡ (settled (met seat.old.me.0 note.me.0), seat.old.me.1) }
        ensures begins { IsPrefix seat.old.me.0.seen seat.new.me.0.seen × IsPrefix note.me.0.seen seat.new.me.0.seen }
        ensures whole { seat.old.me.0.marked ≡ true → seat.new.me.0.seen ≡ seat.old.me.0.seen }
    {
        self.table.shared.join_seat::<Meets>(seat, note);
        self.table.shared.load::<Settle>(seat, 0);
    }
}
