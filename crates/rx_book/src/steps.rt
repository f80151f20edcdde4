// What the steps on a lock's word tell, and the rule that they keep.
use atomic_table::{Play, TableRule};
use std::marker::PhantomData;

/// What is true of a lock's value whenever no one has the lock. The fact is about the lock's key and the value.
pub trait Fact<T, K> {
    ghost holds: { K → T → Type 0 };
}

/// What one who steps on the lock knows: the key, whether the value is out with it, and whether it has closed the lock. No
/// value of it is made.
pub struct Hand<K> {
    pub key: K,
    pub has_it: bool,
    pub closed: bool,
}

// The rule of the word and the slot.
pub struct Rule<F> {
    fact: PhantomData<F>,
}

impl<T, K, F: Fact<T, K>> TableRule<Option<T>, Hand<K>, K> for Rule<F> {
    ghost use Rattle.rx_book.specs.Latched.{Latched, idle};

    ghost holds = { Latched F.holds };

    ghost first = { idle };
}

// One comes to the lock.
pub struct Sit;

impl<T, K> Play<Option<T>, Hand<K>> for Sit {
    ghost use Rattle.rx_book.specs.Latched.{Sat};

    ghost then = { Sat };
}

// One tries to take the value.
pub struct Take<F> {
    fact: PhantomData<F>,
}

impl<T, K, F: Fact<T, K>> Play<Option<T>, Hand<K>> for Take<F> {
    ghost use Rattle.rx_book.specs.Latched.{Took};

    ghost then = { Took F.holds };
}

// One says that it may sleep, and learns nothing.
pub struct MaySleep;

impl<T, K> Play<Option<T>, Hand<K>> for MaySleep {
    ghost use Rattle.rx_book.specs.Latched.{Marked};

    ghost then = { Marked };
}

// One gives the value back.
pub struct Give;

impl<T, K> Play<Option<T>, Hand<K>> for Give {
    ghost use Rattle.rx_book.specs.Latched.{Ends, idle};

    ghost then = { Ends idle };
}

// One closes the lock.
pub struct Close;

impl<T, K> Play<Option<T>, Hand<K>> for Close {
    ghost use Rattle.rx_book.specs.Latched.{Ends, closing};

    ghost then = { Ends closing };
}
