//! What was sent for an input, datagram by datagram.
ghost use Rattle.std.specs.Prelude.{◌≡◌, ◌+◌, drop, length, option_copied};
ghost use Rattle.cue_evening.specs.Sent as spec;

use cue_engine::{Account, Order, Reply};

/// What an account has, and whether each of its datagrams left.
#[derive(Clone, Copy)]
pub struct Sent<'a> {
    pub replies: &'a [Reply],
    pub orders: &'a [Order],
    /// The replies in order, each before its statuses, and then the orders; empty if that is not known.
    pub left: &'a [bool],
}

// How many datagrams these replies and so many orders are, with the statuses after the replies.
fn count_of(orders: usize, replies: &[Reply]) -> usize
    ensures { result ≡ spec.count_of orders replies.now }
{
    let mut count = orders;
    for reply in replies {
        count = count.saturating_add(reply.statuses).saturating_add(1);
    }
    count
}

impl<'a> Sent<'a> {
    /// What was sent for an input, if each datagram of its account has a bit, in order; else nothing is known of them.
    pub fn of(account: Option<&'a Account>, left: &'a [bool]) -> Sent<'a>
        ensures replies { result.replies.now ≡ spec.replies_of (option_copied account.entry) }
        ensures orders { result.orders.now ≡ spec.orders_of (option_copied account.entry) }
        ensures left { result.left.now ≡ spec.left_of (option_copied account.entry) left.now }
    {
        let (replies, orders): (&[Reply], &[Order]) = match account {
            Some(account) => (&account.replies, &account.orders),
            None => (&[], &[]),
        };
        let is_known = left.len() == count_of(orders.len(), replies);
        Sent {
            replies,
            orders,
            left: if is_known { left } else { &[] },
        }
    }

    /// Whether the next datagram left; None if that is not known. The one after so many others is the next from then
    /// on.
    pub fn take(&mut self, others: usize) -> Option<bool>
        ensures left { result ≡ spec.first self.old.left.now }
        ensures rest { self.new.left.now ≡ drop (others + 1) self.old.left.now }
        ensures replies { self.new.replies ≡ self.old.replies }
        ensures orders { self.new.orders ≡ self.old.orders }
    {
        let (first, rest) = self.left.split_first()?;
        self.left = match rest.split_at_checked(others) {
            Some((_, later)) => later,
            None => &[],
        };
        Some(*first)
    }
}
