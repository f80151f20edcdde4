// Names and what they hold.
ghost use Rattle.std.specs.Prelude.{◌≡◌, option_map};
ghost use Rattle.rx_check.specs.Inside.Walk.{is_in, kind_as, kind_in, seen_all};

use rx_syntax::NameId;

// What a name holds.
#[derive(Clone, Copy, Debug, PartialEq, Eq)]
pub(crate) enum Kind {
    Number,
    Reference,
}

// A name with the kind that its first assignment gives it.
#[derive(Clone, Copy, Debug, PartialEq, Eq)]
pub(crate) struct Seen {
    pub(crate) name: NameId,
    pub(crate) kind: Kind,
}

// The kind of a name, if it was assigned. There are at most 32 to go through.
pub(crate) fn kind_of(seen: &[Seen], name: NameId) -> Option<Kind>
    ensures { option_map kind_as result ≡ kind_in (seen_all seen.now) name.0 }
{
    for one in seen {
        if one.name.0 == name.0 {
            return Some(one.kind);
        }
    }
    None
}

// Whether a name is among these.
pub(crate) fn is_known(known: &[NameId], name: NameId) -> bool
    ensures { result ≡ is_in name.0 known.now }
{
    known.iter().any(|other| name.0 == other.0)
}
