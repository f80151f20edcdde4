// The laws of histories and journals, which hold of what a machine makes as of every run.
pub use rx_history_laws::{
    each_is_told_once, early_computes, history_is_ordered, losses_are_exact, losses_compute,
    nothing_is_early, once_computes, order_computes, run_is_exact, run_is_not_early,
    run_is_ordered,
};
