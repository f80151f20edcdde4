// Messages by two passes, a mailbox that is drained, and one to which two threads send.
ghost use Rattle.std.specs.Prelude.{◌≡◌, ◌≤◌};

use crate::same::same;
use rx_base::{NoMemory, PlaceId, ScopeId, TaskId};
use rx_finish::Caller;
use rx_mail::{Carried, Mail, MailPass};
use rx_rules::Where;
use rx_ticket::{InTransit, Ticket};
use std::sync::Wait;
use std::test::Fail;
use std::thread::join;

#[derive(Drop)]
struct Letter {
    ticket: Ticket<InTransit>,
    number: u32,
}

impl Carried for Letter {
    fn ticket(&self) -> &Ticket<InTransit> {
        &self.ticket
    }
}

fn message(number: u32) -> Letter {
    Letter {
        ticket: Ticket::<InTransit>::issue(Caller {
            task: TaskId(number),
            scope: ScopeId(0),
            inner: ScopeId(0),
            place: Where::Travel {
                from: PlaceId(0),
                to: PlaceId(1),
            },
        }),
        number,
    }
}

// The number of the message that is taken, or 0 where there is none.
fn taken<R: Wait>(rt: &R, mail: &Mail<Letter>, pass: &mut MailPass<Letter>) -> u32
    requires { pass.old.of ≡ mail.now }
    ensures { pass.new.of ≡ pass.old.of }
{
    match mail.take_as(rt, pass) {
        Some(m) => match m.ticket().caller().task {
            TaskId(number) => number,
        },
        None => 0,
    }
}

// Sends the messages 1 and 3 by one pass, and 2 between them by another, which then takes one.
fn exchange<R: Wait>(rt: &R, mail: &Mail<Letter>, a: &mut MailPass<Letter>) -> Result<u32, NoMemory>
    requires { a.old.of ≡ mail.now }
    ensures { a.new.of ≡ a.old.of }
{
    let mut b = mail.split(a)?;
    let first = mail.send_as(rt, a, message(1)).is_ok();
    let second = mail.send_as(rt, &mut b, message(2)).is_ok();
    let third = mail.send_as(rt, a, message(3)).is_ok();
    if first && second && third {
        Ok(taken(rt, mail, &mut b))
    } else {
        Err(NoMemory)
    }
}

// The numbers of the messages that are left.
fn drained<R: Wait>(
    rt: &R,
    mail: Mail<Letter>,
    pass: MailPass<Letter>,
) -> Result<Vec<Letter>, NoMemory>
    requires { pass.of ≡ mail }
{
    match mail.drain(rt, pass) {
        Ok(left) => Ok(left),
        Err((mail, _pass, _taken, _)) => {
            mail.end();
            Err(NoMemory)
        }
    }
}

#[test]
fn messages_come_in_order_and_what_is_left_is_drained(rt: HostRuntime) -> Result<(), Fail> {
    let (mail, mut a) = Mail::open(rt.alloc())?;
    let none = taken(&rt, &mail, &mut a);
    let first = exchange(&rt, &mail, &mut a);
    let left = drained(&rt, mail, a)?;
    same(&rt, (none, first), (0, Ok(1)));
    assert!(rt; left.len() == 2);
    same(&rt, left[0].number, 2);
    same(&rt, left[1].number, 3);
    Ok(())
}

// How many messages each thread sends.
const MANY: u32 = 10_000;

// Sends that many messages, numbered from `first` on. It breaks off where memory runs out.
fn sends<R: Wait>(rt: &R, mail: &Mail<Letter>, pass: &mut MailPass<Letter>, first: u32) -> bool
    requires pass { pass.old.of ≡ mail.now }
    requires first { first ≤ 10000 }
    ensures { pass.new.of ≡ pass.old.of }
{
    for k in 0..MANY {
        if mail.send_as(rt, pass, message(first + k)).is_err() {
            return false;
        }
    }
    true
}

// Whether the messages numbered from `first` on stand in their order, each once.
fn in_order(letters: &[Letter], first: u32) -> bool {
    let mut next = first;
    for letter in letters {
        if letter.number / MANY == first / MANY {
            if letter.number != next {
                return false;
            }
            next = next.wrapping_add(1);
        }
    }
    next == first.wrapping_add(MANY)
}

#[test]
fn two_threads_send_each_message_once(rt: HostRuntime) -> Result<(), Fail> {
    let (mail, mut a) = Mail::open(rt.alloc())?;
    let (Ok(b), Ok(c)) = (mail.split(&mut a), mail.split(&mut a)) else {
        mail.end();
        return Err(NoMemory.into());
    };
    let shared = &mail;
    let (x, y) = join(
        &rt,
        move || -> bool {
            let mut b = b;
            sends(&rt, shared, &mut b, 0)
        },
        move || -> bool {
            let mut c = c;
            sends(&rt, shared, &mut c, MANY)
        },
    );
    let left = drained(&rt, mail, a)?;
    assert!(rt; x);
    assert!(rt; y);
    assert!(rt; left.len() == 20_000);
    assert!(rt; in_order(&left, 0));
    assert!(rt; in_order(&left, MANY));
    Ok(())
}
