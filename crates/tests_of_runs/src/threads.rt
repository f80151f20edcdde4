// What may be moved to another thread, and what may be shared between threads. Each function is a test by being well typed.
use rx_activities::{Activity, LedgerPass, Naming, Traveller};
use rx_base::{CellGate, Gate, NoGate};
use rx_book::Book;
use rx_counts::CountLedger;
use rx_history::{History, Journal, Journals, Setup};
use rx_machine::Machine;
use rx_objects::{
    LedgerAndGate, LedgerObject, LedgerOp, LedgerReply, PlaceObject, PlaceOp, PlaceReply,
};
use rx_store::Store;
use std::marker::Brand;

// Values of the type may be moved to another thread.
fn may_move<T: Send>() {}

// Values of the type may be shared between threads.
fn may_share<T: Sync>() {}

fn ledger_crosses() {
    may_move::<LedgerReply>();
    may_share::<Book<LedgerObject>>();
}

fn ledger_object_moves() {
    may_move::<LedgerObject>();
}

fn ledger_op_moves() {
    may_move::<LedgerOp>();
}

fn place_calls_move() {
    may_move::<PlaceOp>();
    may_move::<PlaceReply>();
}

fn place_object_moves<'a, G: Gate + Sync>(_gate: &'a G) {
    may_move::<PlaceObject<LedgerAndGate<'a, Book<LedgerObject>, G>>>();
}

fn place_book_is_shared<'a, G: Gate + Sync>(_gate: &'a G) {
    may_share::<Book<PlaceObject<LedgerAndGate<'a, Book<LedgerObject>, G>>>>();
}

fn place_books_are_shared<'a, G: Gate + Sync>(_gate: &'a G) {
    may_share::<Vec<Book<PlaceObject<LedgerAndGate<'a, Book<LedgerObject>, G>>>>>();
}

fn activities_move<N: Naming + Send>() {
    may_move::<Activity<N>>();
}

fn travellers_move<N: Naming + Send>() {
    may_move::<Traveller<N>>();
}

fn ledger_passes_move<N: Naming + Send>() {
    may_move::<LedgerPass<N>>();
}

fn runs_move() {
    may_move::<Machine<CountLedger>>();
    may_move::<Store>();
    may_move::<Journal>();
    may_move::<Journals>();
    may_move::<History>();
    may_move::<Setup>();
    may_share::<Setup>();
}

/// The books of a run may be shared between its workers, whatever the gate, and what the workers hand to each other may be moved.
#[test]
fn workers_share_books_and_hand_on_activities(_rt: HostRuntime) {
    ledger_crosses();
    ledger_object_moves();
    ledger_op_moves();
    place_calls_move();
    place_object_moves(&NoGate);
    place_book_is_shared(&CellGate::open(1));
    place_books_are_shared(&NoGate);
    activities_move::<Brand>();
    travellers_move::<Brand>();
    ledger_passes_move::<Brand>();
    runs_move();
}
