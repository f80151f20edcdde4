// What every ledger promises. docs/semantics.md states the rules of each call under "Activities and scopes".
ghost use Rattle.std.specs.Prelude.{◌≡◌, ℕ, suc};
ghost use Rattle.rx_rules.specs.Tree.{Tree};
ghost use Rattle.rx_rules.specs.Entries.{strike, widened};
ghost use Rattle.rx_finish.specs.Callers.{MayAskMoving, MayAskTo, MayAskArrive, MayAskWait, MayAskRelease, MayAskEnd, HasRoot, MayStrike};
ghost use Rattle.rx_finish.specs.Callers.{MayJoin};
ghost use Rattle.rx_finish.specs.Calls.{OpenReply, CallReply, SpawnReply, ArriveReply, WaitReply, is_ready, ReleaseReply, EndReply};
ghost use Rattle.rx_finish.specs.Calls.{PrintReply, CensusReply, RootReply};

use rx_base::{Faults, PlaceId, PlaceSet, ScopeId, TaskId};
use rx_rules::Where;

/// Who asks: a task, the scope that it hangs under, its innermost scope, and where it is.
#[derive(Clone, Copy, Debug, PartialEq, Eq)]
pub struct Caller {
    pub task: TaskId,
    /// The scope that it hangs under.
    pub scope: ScopeId,
    /// The last scope that it opened and has not released, or else the scope that it hangs under.
    pub inner: ScopeId,
    pub place: Where,
}

/// Why a ledger refuses. A refusal changes nothing.
#[derive(Clone, Copy, Debug, PartialEq, Eq)]
pub enum LedgerFault {
    /// An unstruck task is under the scope that is to be released; it is at this place or travels there.
    NotYet { place: PlaceId },
    /// The caller is struck: entry `at` of the history is the death of the place, and struck it.
    Lost { place: PlaceId, at: u32 },
    /// There is no memory left.
    NoMemory,
}

/// A task that was started.
#[derive(Clone, Copy, Debug, PartialEq, Eq)]
pub struct Born {
    pub child: TaskId,
    /// The scope that it hangs under.
    pub scope: ScopeId,
    /// Whether it is born struck, its place being dead.
    pub lost: bool,
}

/// What a release names.
#[derive(Drop)]
pub struct Outcome {
    /// The places at which tasks under the scope were lost.
    pub lost: PlaceSet,
    /// How many faults the scopes below it held, which nobody is told; the count stops at 4,294,967,295.
    pub masked: u32,
    /// The faults of the scope's body, and then those of the tasks that hung under it, in the order of their ends.
    pub thrown: Faults,
}

/// A ledger of tasks and scopes. It stands for one tree or for several, and has room for so many places more. The condition of a
/// call is that it holds of a tree that the ledger stands for, and its clause holds for every such tree: the answer is that of the
/// tree, and afterwards the ledger stands for the tree that the call makes, with the same room. `Lost` comes exactly where the
/// caller is struck, and is decided, as `NotYet` is, before memory is taken.
pub trait FinishLedger: Drop {
    /// For how many more places it has room, and the trees that it stands for.
    ghost stands: { Self → ℕ → Tree → Type 0 };

    /// Opens a finish inside the caller's innermost scope.
    fn open_finish(&mut self, who: Caller) -> Result<ScopeId, LedgerFault>
        requires { (room : ℕ) × (T : Tree) × stands self.old room T × MayAskMoving T who }
        ensures { (room : ℕ) (T : Tree) → stands self.old room T → MayAskMoving T who → OpenReply T who result (stands self.new room) };

    /// Opens the scope of an `at` and starts its callee, which hangs under it; the caller waits.
    fn open_at(&mut self, who: Caller, to: PlaceId) -> Result<Born, LedgerFault>
        requires { (room : ℕ) × (T : Tree) × stands self.old room T × MayAskTo T who to }
        ensures { (room : ℕ) (T : Tree) → stands self.old room T → MayAskTo T who to → CallReply T who to result (stands self.new room) };

    /// Starts a task, which hangs under the nearest finish from the caller's innermost scope along parents.
    fn spawn(&mut self, who: Caller, to: PlaceId) -> Result<Born, LedgerFault>
        requires { (room : ℕ) × (T : Tree) × stands self.old room T × MayAskTo T who to }
        ensures { (room : ℕ) (T : Tree) → stands self.old room T → MayAskTo T who to → SpawnReply T who to result (stands self.new room) };

    /// Makes a travelling task live. It takes no memory.
    fn arrive(&mut self, who: Caller) -> Result<(), LedgerFault>
        requires { (room : ℕ) × (T : Tree) × stands self.old room T × MayAskArrive T who }
        ensures { (room : ℕ) (T : Tree) → stands self.old room T → MayAskArrive T who → ArriveReply T who result (stands self.new room) };

    /// Records the faults of the body of the caller's finish, and that the caller waits there.
    fn wait(&mut self, who: Caller, thrown: Faults) -> Result<(), (LedgerFault, Faults)>
        requires { (room : ℕ) × (T : Tree) × stands self.old room T × MayAskWait T who }
        ensures { (room : ℕ) (T : Tree) → stands self.old room T → MayAskWait T who
            → WaitReply T who thrown result (stands self.new room) };

    /// Whether the caller is unstruck and no unstruck task is under its innermost scope. It takes no memory.
    fn ready(&self, who: Caller) -> bool
        requires { (room : ℕ) × (T : Tree) × stands self.now room T × MayAskRelease T who }
        ensures { (room : ℕ) (T : Tree) → stands self.now room T → MayAskRelease T who → result ≡ is_ready T who };

    /// Releases the caller's innermost scope, at which it waits. `NotYet` comes exactly where the caller is unstruck and an unstruck
    /// task is under the scope.
    fn release(&mut self, who: Caller) -> Result<Outcome, LedgerFault>
        requires { (room : ℕ) × (T : Tree) × stands self.old room T × MayAskRelease T who }
        ensures { (room : ℕ) (T : Tree) → stands self.old room T → MayAskRelease T who → ReleaseReply T who result (stands self.new room) };

    /// Ends the caller: its faults join those of the scope that it hangs under.
    fn end(&mut self, who: Caller, thrown: Faults) -> Result<(), (LedgerFault, Faults)>
        requires { (room : ℕ) × (T : Tree) × stands self.old room T × MayAskEnd T who }
        ensures { (room : ℕ) (T : Tree) → stands self.old room T → MayAskEnd T who → EndReply T who thrown result (stands self.new room) };

    /// Only asks whether the caller is unstruck. It takes no memory.
    fn print(&self, who: Caller) -> Result<(), LedgerFault>
        requires { (room : ℕ) × (T : Tree) × stands self.now room T × MayAskMoving T who }
        ensures { (room : ℕ) (T : Tree) → stands self.now room T → MayAskMoving T who → PrintReply T who result };

    /// The number of places that have joined, dead ones among them. It takes no memory.
    fn census(&self, who: Caller) -> Result<u8, LedgerFault>
        requires { (room : ℕ) × (T : Tree) × stands self.now room T × MayAskMoving T who }
        ensures { (room : ℕ) (T : Tree) → stands self.now room T → MayAskMoving T who → CensusReply T who result };

    /// The host's release of the root. `NotYet` comes exactly where an unstruck task is left.
    fn release_root(&mut self) -> Result<Outcome, LedgerFault>
        requires { (room : ℕ) × (T : Tree) × stands self.old room T × HasRoot T }
        ensures { (room : ℕ) (T : Tree) → stands self.old room T → HasRoot T → RootReply T result (stands self.new room) };

    /// Strikes each unstruck task at the place or on its way from or to it, and keeps the number of the death. It takes no
    /// memory.
    fn death(&mut self, place: PlaceId, at: u32)
        requires { (room : ℕ) × (T : Tree) × stands self.old room T × MayStrike T place at }
        ensures { (room : ℕ) (T : Tree) → stands self.old room T → MayStrike T place at
            → stands self.new room (strike (record { place = place; entry = at }) T) };

    /// Adds a place, for which there is room: the one whose number is the number of places. It takes no memory.
    fn join(&mut self, place: PlaceId)
        requires { (room : ℕ) × (T : Tree) × stands self.old (suc room) T × MayJoin T place }
        ensures { (room : ℕ) (T : Tree) → stands self.old (suc room) T → MayJoin T place → stands self.new room (widened T) };
}
