// What the options of `step`, `gen` and `live` have said.
use rx_base::Kill;

// The commands that have options.
#[derive(Clone, Copy, Debug, PartialEq, Eq)]
pub(crate) enum Verb {
    Step,
    Gen,
    Live,
}

// What options have said so far. Each kill and each join's moment stands with the number of its word.
#[derive(Drop)]
pub(crate) struct Said {
    pub(crate) size: Option<u32>,
    pub(crate) places: Option<u32>,
    pub(crate) heap: Option<u32>,
    pub(crate) kills: Vec<(usize, Kill)>,
    pub(crate) joins: Vec<(usize, u32)>,
    pub(crate) picks: Option<Vec<u32>>,
    pub(crate) seed: Option<u64>,
    pub(crate) workers: Option<u32>,
    pub(crate) watch: Option<u32>,
}
