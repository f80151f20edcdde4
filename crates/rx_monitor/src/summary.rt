// What a board shows.
use rx_base::PlaceSet;

/// What a run is like after the first `len` entries of its history: how many scopes are open, how many unstruck tasks are at a place
/// (those that wait among them) and how many travel, and which places are dead.
#[derive(Clone, Copy, Debug, PartialEq, Eq)]
pub struct Summary {
    pub len: u32,
    pub scopes: u32,
    pub live: u32,
    pub travel: u32,
    pub dead: PlaceSet,
}
