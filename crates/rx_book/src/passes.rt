// What a caller of a book holds. Neither type names the object.
ghost use Rattle.std.specs.Prelude.{◌≡◌, ◌≤◌, true, false, [], length};
ghost use Rattle.rx_book.specs.History.{entries_by};

use crate::views::View;
use crate::word::Spot;

/// What a caller has seen of a history, and its own entries. It has no bytes, and may be moved to another thread.
#[derive(Drop)]
pub struct Pass<I> {
    pub(crate) seat: Spot<I>,
    ghost plain: { seat.me.0.marked ≡ false },
    ghost numbered: { seat.me.0.numbered ≡ true },
    ghost bare: { seat.me.1 ≡ [] },
    pub ghost low: { length seat.me.0.seen ≤ seat.me.0.reach },
    pub ghost own: { seat.me.0.mine ≡ entries_by seat.me.0.number seat.me.0.seen },
}

/// What was seen of a history, and nothing more. It has no bytes, and may be moved to another thread.
#[derive(Drop)]
pub struct Note<I> {
    pub(crate) seat: Spot<I>,
    ghost plain: { seat.me.0.marked ≡ false },
    ghost bare: { seat.me.1 ≡ [] },
    pub ghost low: { length seat.me.0.seen ≤ seat.me.0.reach },
}

impl<I> Pass<I> {
    ghost use Rattle.rx_book.specs.Passes.{view_of, word_of, note_view, note_word, IsAsSeen};

    /// Ends the pass, and keeps what it has seen.
    pub fn into_note(self) -> Note<I>
        ensures own { note_word result ≡ word_of self }
        ensures seen { IsAsSeen (view_of self) (note_view result) }
    {
        let Pass { seat } = self;
        Note { seat }
    }
}
