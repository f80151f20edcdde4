// An audit.
ghost use Rattle.std.specs.Prelude.{◌≡◌, ◌↔◌, ◌<◌, List, [], length, IsTrue, IfOk};
ghost use Rattle.rx_rules.specs.declared.entries.Entry.{Entry};
ghost use Rattle.rx_rules.specs.declared.entries.Entry.TheVariants.{Root, Death, Join};
ghost use Rattle.rx_rules.specs.Fold.{opening};
ghost use Rattle.rx_rules.specs.Run.{Given, Proper, IsDue, NoneDue, EndsWithRoot};
ghost use Rattle.rx_history.specs.Setups.{given};
ghost use Rattle.rx_kills.specs.Least.{entry_of};
ghost use Rattle.rx_verify.specs.Inside.Admits.{AuditIs};
ghost use Rattle.rx_verify.specs.Inside.Granting.{CanContinue, CallerMayAsk, Admitting, AdmittingOf};

use crate::granting::{grants, refused, same_outcome, set_fits};
use rx_base::{Faults, NoMemory, PlaceSet};
use rx_finish::{Caller, FinishLedger};
use rx_history::Setup;
use rx_kills::{Due, Kills};
use rx_rules::Act;
use std::alloc::Global;

/// A ledger that has made some entries of a history, with what tells which entry may follow.
#[derive(Drop)]
pub(crate) struct Audit<L: FinishLedger> {
    ledger: L,
    // The deaths and joins that are not done.
    plan: Kills,
    // How many entries there are.
    count: u32,
    // Whether the root is released.
    ended: bool,
    alloc: Global,
}

impl<L: FinishLedger> Audit<L> {
    /// Before the first entry of a history under a setup, over a ledger that stands for the opening tree and has room for the places
    /// that are to join.
    pub(crate) fn open(alloc: Global, ledger: L, setup: &Setup) -> Result<Audit<L>, NoMemory>
        requires proper { Proper (given setup.now) }
        requires opened { L.stands ledger (length setup.now.joins) (opening setup.now.places) }
        ensures { IfOk result (λ a. AuditIs L.stands (given setup.now) [] a) }
    {
        let plan = Kills::open(alloc, &setup.kills, &setup.joins, setup.places)?;
        Ok(Audit {
            ledger,
            plan,
            count: 0,
            ended: false,
            alloc,
        })
    }

    /// Whether the root is released, which is the last entry then.
    pub(crate) fn has_ended(&self) -> bool
        ensures ends { (U : Given) (es : List Entry) → AuditIs L.stands U es self.now → IsTrue result ↔ EndsWithRoot es }
        ensures so { result ≡ self.now.ended }
    {
        self.ended
    }

    // Whether this is due.
    fn is_due(&self, due: Due) -> bool
        ensures { IsTrue result ↔ IsDue self.now.count (entry_of due) self.now.plan }
    {
        self.plan.due(self.count) == Some(due)
    }

    // Whether nothing is due.
    fn none_due(&self) -> bool
        ensures { IsTrue result ↔ NoneDue self.now.count self.now.plan }
    {
        self.plan.due(self.count).is_none()
    }

    /// Makes a death or a join, where it is due. After a no, or where memory ran out, here and below, the audit is of no more use.
    pub(crate) fn pass(&mut self, due: Due) -> bool
        requires { CanContinue L.stands self.old }
        ensures { Admitting L.stands self.old self.new (entry_of due) result }
    {
        rx_tree_laws::dead_are_as_told();
        if !self.is_due(due) {
            return false;
        }
        match due {
            Due::Death(place) => self.ledger.death(place, self.count),
            Due::Join(place) => self.ledger.join(place),
        }
        self.plan.done();
        self.count += 1;
        true
    }

    /// Releases the root, where nothing is due, and where the ledger's answer is that of the entry.
    pub(crate) fn root(
        &mut self,
        lost: PlaceSet,
        masked: u32,
        thrown: &Faults,
    ) -> Result<bool, NoMemory>
        requires { CanContinue L.stands self.old }
        ensures { IfOk result (λ b. Admitting L.stands self.old self.new (Root lost masked thrown.now) b) }
    {
        rx_base::members_make_the_set();
        rx_tree_laws::root_stands_until_released();
        if !self.none_due() {
            return Ok(false);
        }
        match self.ledger.release_root() {
            Ok(outcome) => {
                set_fits(lost);
                set_fits(outcome.lost);
                if !same_outcome(&outcome, lost, masked, thrown) {
                    return Ok(false);
                }
                self.ended = true;
                self.count += 1;
                Ok(true)
            }
            Err(fault) => refused(fault),
        }
    }

    /// Makes the act of a caller who may ask for it, where nothing is due and the ledger's answer is that of the entry.
    pub(crate) fn grant(&mut self, who: Caller, act: &Act) -> Result<bool, NoMemory>
        requires { CallerMayAsk L.stands self.old who act.now }
        ensures { IfOk result (λ b. AdmittingOf L.stands self.old self.new who act.now b) }
    {
        if !self.none_due() {
            return Ok(false);
        }
        if !grants(self.alloc, &mut self.ledger, who, act)? {
            return Ok(false);
        }
        self.count += 1;
        Ok(true)
    }
}
