// Lists that exist for contracts alone.
use std::snapshot::Snapshot;

/// What was noted down so far. Its last item alone lies in memory; contracts see all.
#[derive(Drop)]
pub enum Trail<N> {
    Empty,
    After(Snapshot<Trail<N>>, N),
}
