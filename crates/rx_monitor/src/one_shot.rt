// A one-shot that is filled once and emptied once, through a shared reference and without a wait.
ghost use Rattle.std.specs.Prelude.{◌≡◌, IfOk, IfSome, [], ◌∷◌};
ghost use Rattle.rx_monitor.specs.Inside.OneShots.{fresh};
ghost use Rattle.rx_monitor.specs.Inside.Pages.{IsNote};

use crate::shown_list::ListSeat;
use crate::summary::Summary;
use atomic_table::{Play, Seat, Table, TableRule};
use std::alloc::{AllocError, Global};
use std::snapshot::Snapshot;

/// Which list a summary ends: all that had been shown before, and the summary. Only contracts read the first.
#[derive(Drop)]
pub struct Label {
    pub before: Snapshot<ListSeat>,
    pub summary: Summary,
}

/// What one who steps on a one-shot knows. No value of it is made.
pub struct Hand<K> {
    pub key: K,
    pub stage: u64,
}

// The rule: what is in it is a note of the list that the label names.
pub struct Holds;

impl TableRule<Option<ListSeat>, Hand<Label>, Label> for Holds {
    ghost use Rattle.rx_monitor.specs.Inside.OneShots.{OneShotKept, fresh};
    ghost use Rattle.rx_monitor.specs.Inside.Pages.{IsNote};

    ghost holds = { OneShotKept IsNote };

    ghost first = { fresh };
}

// One comes to the one-shot.
pub struct Sit;

impl Play<Option<ListSeat>, Hand<Label>> for Sit {
    ghost use Rattle.rx_monitor.specs.Inside.OneShots.{Sat};

    ghost then = { Sat };
}

// The one who fills it takes its slot.
pub struct Reach;

impl Play<Option<ListSeat>, Hand<Label>> for Reach {
    ghost use Rattle.rx_monitor.specs.Inside.OneShots.{Reached};

    ghost then = { Reached };
}

// It is filled.
pub struct Fill;

impl Play<Option<ListSeat>, Hand<Label>> for Fill {
    ghost then = { λ _ _ _ _. Unit {0} };
}

// One tries to empty it.
pub struct Take;

impl Play<Option<ListSeat>, Hand<Label>> for Take {
    ghost use Rattle.rx_monitor.specs.Inside.OneShots.{Took};
    ghost use Rattle.rx_monitor.specs.Inside.Pages.{IsNote};

    ghost then = { Took IsNote };
}

/// The right to fill a one-shot.
pub type Filler = Seat<Option<ListSeat>, Hand<Label>>;

#[derive(Drop)]
pub struct OneShot {
    table: Table<Option<ListSeat>, Hand<Label>, Label, Holds, Global>,
    ghost shape: { (table.shared.table_id.words ≡ 1) × (table.shared.table_id.slots ≡ 1) },
}

impl OneShot {
    pub fn new(alloc: Global, label: &Label) -> Result<(OneShot, Filler), AllocError>
        ensures label { IfOk result (λ t. t.0.table.shared.key ≡ label.now) }
        ensures filler { IfOk result (λ t. (t.1.table_id ≡ t.0.table.shared.table_id) × (t.1.me ≡ (fresh label.now, []))) }
    {
        let (table, seat) = Table::vacant(alloc, &[0], 1, label)?;
        Ok((OneShot { table }, seat))
    }

    pub fn fill(&self, filler: Filler, note: ListSeat)
        requires own { (filler.table_id ≡ self.now.table.shared.table_id) × (filler.me ≡ (fresh self.now.table.shared.key, [])) }
        requires note { IsNote self.now.table.shared.key note }
    {
        let mut seat = filler;
        let shared = &self.table.shared;
        shared.load::<Reach>(&mut seat, 0);
        let gone = shared.exchange(&mut seat, 0, Some(note));
        let None = gone else { unreachable!() };
        shared.store::<Fill>(&mut seat, 0, 1);
    }

    pub fn take(&self) -> Option<ListSeat>
        ensures { IfSome result (λ n. IsNote self.now.table.shared.key n) }
    {
        let shared = &self.table.shared;
        let (_, mut seat) = shared.load_new_seat::<Sit>(0);
        let found = shared.compare_exchange::<Take>(&mut seat, 0, 1, 2);
        if found == 1 {
            shared.exchange(&mut seat, 0, None)
        } else {
            None
        }
    }
}
