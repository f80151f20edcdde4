//! Mailboxes that carry tickets in transit. It stands on rx_ticket and on the unbounded queue of `crossbeam_queue`, under a rule:
//! there is one list of all messages that were sent, and those that were taken are its front. Contracts see a pass as what its
//! holder has sent, and what it has taken and at which positions. The layers above use that each message is taken once, or is
//! left. docs/architecture.md says under "rx_mail" what each call does.
#![tactic(auto)]

pub mod laws;
mod letters;
mod mailbox;

pub use letters::{Letters, Posted, Taken};
pub use mailbox::{Carried, Mail, MailPass};
