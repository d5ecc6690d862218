//! The policies of a channel: when its receiver issues without a call, and when its sender honours a plead without one.
ghost use Rattle.std.specs.Prelude.{◌≡◌, ◌≤◌, ◌+◌, ◌<◌, ◌^◌, false};
ghost use Rattle.lc_frame.specs.Kind.{max_amount};
ghost use Rattle.lc_owed.specs.Pending.{beside};
ghost use Rattle.lc_owed.specs.Policy.{new_policies, issues_at, most_outstanding, issuable, due_by_policy, honours_by_policy, by_policy};

use crate::pending::Pending;
use lc_book::{ClientBook, ServerBook};
use lc_frame::MAX_TOTAL;

/// When a receiver issues without a call.
#[derive(Clone, Copy, Debug, PartialEq, Eq)]
pub enum IssuePolicy {
    /// All that may be issued, as soon as there is any.
    AtOnce,
    /// The same, while fewer guarantees are outstanding than this.
    LowWater(u32),
    /// Never: the caller issues.
    ByCaller,
}

/// When a sender honours a plead without a call.
#[derive(Clone, Copy, Debug, PartialEq, Eq)]
pub enum PleadPolicy {
    /// As soon as one is kept.
    AtOnce,
    /// Never: the caller honours or ignores it.
    ByCaller,
}

/// The policies of a channel.
#[derive(Clone, Copy)]
pub struct Policies {
    /// When its receiver issues.
    pub issue: IssuePolicy,
    /// The target of its receiver's last plead, above which the policy issues nothing.
    pub target: Option<u32>,
    /// When its sender honours a plead.
    pub plead: PleadPolicy,
}

impl IssuePolicy {
    // Whether it issues where so many guarantees are outstanding.
    fn issues_at(self, outstanding: u64) -> bool
        ensures { result ≡ issues_at self outstanding }
    {
        match self {
            IssuePolicy::AtOnce => true,
            IssuePolicy::LowWater(mark) => outstanding < u64::from(mark),
            IssuePolicy::ByCaller => false,
        }
    }

    /// How much it issues on a channel, beside what is pending there: nothing where the sender finished, and else what the
    /// ring has room for and the limit on receiving and the total leave, up to the target of the last plead.
    pub fn due(self, target: Option<u32>, book: &ServerBook, pending: Pending) -> u32
        ensures value { result ≡ due_by_policy self target (beside book.now pending) }
        ensures small { pending.issue + result < 2 ^ 32 }
    {
        let outstanding = pending.outstanding(book);
        if book.is_finished() || !self.issues_at(outstanding) {
            return 0;
        }
        let most = match target {
            Some(target) => u64::from(target),
            None => u64::from(book.capacity()),
        };
        issuable(book, pending).min(most.saturating_sub(outstanding)) as u32
    }
}

// How much may be issued at most beside what is pending.
fn issuable(book: &ServerBook, pending: Pending) -> u64
    ensures value { result ≡ issuable (beside book.now pending) }
    ensures small { result ≤ max_amount }
    ensures joined { book.now.finished ≡ false → 0 < result → pending.issue + result ≤ max_amount }
{
    let unissued = MAX_TOTAL.saturating_sub(book.issued() + u64::from(pending.issue));
    let room = pending.room(book).min(unissued);
    match pending.left(book) {
        Some(left) => left.min(room),
        None => room,
    }
}

impl PleadPolicy {
    /// Whether it honours the plead that a sender keeps, if it keeps one.
    pub fn honours(self, book: &ClientBook) -> bool
        ensures { result ≡ honours_by_policy self book.now }
    {
        match self {
            PleadPolicy::AtOnce => book.asked().is_some(),
            PleadPolicy::ByCaller => false,
        }
    }
}

impl Policies {
    /// The policies of a new session: all room is issued at once, and each plead is honoured at once.
    pub fn new() -> Policies
        ensures { result ≡ new_policies }
    {
        Policies {
            issue: IssuePolicy::AtOnce,
            target: None,
            plead: PleadPolicy::AtOnce,
        }
    }

    /// What is pending on a channel once its policies made the calls that are due by them.
    pub fn call(&self, client: &ClientBook, server: &ServerBook, pending: Pending) -> Pending
        ensures { result ≡ by_policy self.now client.now server.now pending }
    {
        let amount = self.issue.due(self.target, server, pending);
        let honour = pending.honour || self.plead.honours(client);
        Pending {
            honour,
            ..pending.with_issue(amount)
        }
    }
}
