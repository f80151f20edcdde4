// Which option a word is.
ghost use Rattle.std.specs.Prelude.{◌≡◌};
ghost use Rattle.rx_words.specs.Words.{named, may_stand, choice};
ghost use Rattle.rx_words.specs.Commands.{wants_of};

use crate::said::{Said, Verb};

// What a word is where an option may stand.
#[derive(Clone, Copy, Debug, PartialEq, Eq)]
pub(crate) enum Kind {
    NoOption,
    Size,
    Places,
    Heap,
    Kill,
    Join,
    Pick,
    Seed,
    Workers,
    Watch,
}

// The option that a word names.
fn option_named(name: &[u8]) -> Kind
    ensures { result ≡ named name.now }
{
    if name == b"--size".as_slice() {
        Kind::Size
    } else if name == b"--places".as_slice() {
        Kind::Places
    } else if name == b"--heap".as_slice() {
        Kind::Heap
    } else if name == b"--kill".as_slice() {
        Kind::Kill
    } else if name == b"--join".as_slice() {
        Kind::Join
    } else if name == b"--pick".as_slice() {
        Kind::Pick
    } else if name == b"--seed".as_slice() {
        Kind::Seed
    } else if name == b"--workers".as_slice() {
        Kind::Workers
    } else if name == b"--watch".as_slice() {
        Kind::Watch
    } else {
        Kind::NoOption
    }
}

// Whether an option may stand where options have said this.
fn stands(verb: Verb, said: &Said, kind: Kind) -> bool
    ensures { result ≡ may_stand verb (wants_of said.now) kind }
{
    match kind {
        Kind::NoOption => false,
        Kind::Size => verb == Verb::Gen && said.size.is_none(),
        Kind::Places => said.places.is_none(),
        Kind::Heap => said.heap.is_none(),
        Kind::Kill => true,
        Kind::Join => verb != Verb::Gen,
        Kind::Pick => verb == Verb::Step && said.picks.is_none() && said.seed.is_none(),
        Kind::Seed => verb != Verb::Live && said.picks.is_none() && said.seed.is_none(),
        Kind::Workers => verb == Verb::Live && said.workers.is_none(),
        Kind::Watch => verb == Verb::Live && said.watch.is_none(),
    }
}

// What a word is.
pub(crate) fn kind_of(verb: Verb, said: &Said, name: &[u8]) -> Kind
    ensures { result ≡ choice verb (wants_of said.now) name.now }
{
    let kind = option_named(name);
    if stands(verb, said, kind) {
        kind
    } else {
        Kind::NoOption
    }
}
