//! Laws of the rule that every mailbox keeps. They do nothing when they run.
ghost use Rattle.rx_mail.specs.Once.{TakenAsSent, TakenOnce};

use crate::Carried;

/// A law: no position is taken by two passes of a mailbox. Within one pass positions rise, by `Mail::take_as`.
pub fn taken_once<M: Carried>()
    ensures { TakenOnce M }
{}

/// A law: what a pass took at a position is the message that was sent there, so the messages of one sender are taken in its order.
pub fn taken_as_sent<M: Carried>()
    ensures { TakenAsSent M }
{}
