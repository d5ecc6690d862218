//! What a peer would answer: questions that change nothing, judged as the calls judge.
ghost use Rattle.std.specs.Prelude.{◌≡◌, ◌-◌, if◌then◌else◌, map, Some, IfOk};
ghost use Rattle.std.specs.Result.{result_err};
ghost use Rattle.lc_frame.specs.declared.frame.Frame.{Frame};
ghost use Rattle.lc_frame.specs.declared.frame.Frame.TheVariants.{Issue, Absolve, Plead, LimitSending, LimitReceiving, Finish};
ghost use Rattle.lc_frame.specs.Frame.{channel_of};
ghost use Rattle.lc_book.specs.Limit.{is_past};
ghost use Rattle.lc_peer.specs.Arrivals.{violation_at};
ghost use Rattle.lc_peer.specs.Offending.{allowed, Exceeds};
ghost use Rattle.lc_peer.specs.Peer.{client, server};
ghost use Rattle.lc_peer.specs.Calls.{refusal, due, honour_refusal};
ghost use Rattle.lc_peer.specs.Questions.{send_refusal, needs, needs_more, ready_on};

use crate::peer::{Peer, judge_spend};
use lc_book::{ClientBook, Refusal, ServerBook, Violation};
use lc_frame::{CHANNELS, Channel, MAX_AMOUNT, MAX_TOTAL};

/// What a message needs before it can be sent.
#[derive(Clone, Copy, Debug, PartialEq, Eq)]
pub enum Needs {
    /// Nothing more: a send of it may want memory, and is not refused else.
    Nothing,
    /// So many guarantees more.
    Guarantees(u64),
    /// A place among the frames that wait to go out.
    Slot,
    /// What never comes: it is empty, longer than the version or what is left of a limit allows, or
    /// the channel is finished.
    Never,
}

/// What there is to do on a channel.
#[derive(Clone, Copy, Debug, PartialEq, Eq)]
pub struct Ready {
    /// A message waits to be taken.
    pub message: bool,
    /// No message waits, and none will come.
    pub ended: bool,
    /// A plead is kept, to be honoured or not.
    pub plead: bool,
    /// This side finished the channel.
    pub finished: bool,
    /// The other side finished the channel.
    pub finished_there: bool,
}

// What it needs that so many guarantees are missing for, of which so many may still be issued.
fn needs_more(receive_left: Option<u64>, missing: u64) -> Needs
    ensures { result ≡ needs_more receive_left missing }
{
    match receive_left {
        Some(left) if left < missing => Needs::Never,
        _ => Needs::Guarantees(missing),
    }
}

// How much a frame might carry that violates the rules so.
fn allowed(client: &ClientBook, server: &ServerBook, violation: Violation) -> Option<u64>
    ensures { result ≡ allowed client.now server.now violation }
{
    match violation {
        Violation::NotGuaranteed | Violation::AbsolvedTooMuch => Some(server.outstanding()),
        Violation::SentPastLimit | Violation::SendLimitRaised => server.send_left(),
        Violation::IssuedPastLimit | Violation::ReceiveLimitRaised => client.receive_left(),
        Violation::TooManyGuarantees => Some(u64::from(MAX_AMOUNT) - client.held()),
        Violation::TotalPassed => Some(MAX_TOTAL - client.received()),
        Violation::AfterFinish => None,
    }
}

impl Peer {
    /// The refusal that a send of so many bytes would answer, but for want of memory.
    pub fn would_send(&self, channel: Channel, len: usize) -> Result<(), Refusal>
        ensures { result_err result ≡ send_refusal self.now channel len }
    {
        judge_spend(self.client_book(channel), len)?;
        self.judge_slot()
    }

    /// The refusal that `absolve` would answer.
    pub fn would_absolve(&self, channel: Channel, n: u32) -> Result<(), Refusal>
        ensures { result_err result ≡ refusal self.now (Absolve channel n) }
    {
        self.client_book(channel).judge_absolve(n)?;
        self.judge_slot()
    }

    /// What `honour` would answer.
    pub fn would_honour(&self, channel: Channel) -> Result<Option<u32>, Refusal>
        ensures answer { result_err result ≡ honour_refusal self.now channel }
        ensures amount { IfOk result (λ amount. amount ≡ due self.now channel) }
    {
        let due = self.client_book(channel).judge_honour()?;
        if due.is_some() {
            self.judge_slot()?;
        }
        Ok(due)
    }

    /// The refusal that `limit_sending` would answer.
    pub fn would_limit_sending(&self, channel: Channel, bound: u64) -> Result<(), Refusal>
        ensures { result_err result ≡ refusal self.now (LimitSending channel bound) }
    {
        self.client_book(channel).judge_limit_sending(bound)?;
        self.judge_slot()
    }

    /// The refusal that `finish` would answer.
    pub fn would_finish(&self, channel: Channel) -> Result<(), Refusal>
        ensures { result_err result ≡ refusal self.now (Finish channel) }
    {
        self.client_book(channel).judge_finish()?;
        self.judge_slot()
    }

    /// The refusal that `issue` would answer.
    pub fn would_issue(&self, channel: Channel, n: u32) -> Result<(), Refusal>
        ensures { result_err result ≡ refusal self.now (Issue channel n) }
    {
        self.server_book(channel).judge_issue(n)?;
        self.judge_slot()
    }

    /// The refusal that `plead` would answer.
    pub fn would_plead(&self, channel: Channel, target: u32) -> Result<(), Refusal>
        ensures { result_err result ≡ refusal self.now (Plead channel target) }
    {
        self.server_book(channel).plead(target)?;
        self.judge_slot()
    }

    /// The refusal that `limit_receiving` would answer.
    pub fn would_limit_receiving(&self, channel: Channel, bound: u64) -> Result<(), Refusal>
        ensures { result_err result ≡ refusal self.now (LimitReceiving channel bound) }
    {
        self.server_book(channel).judge_limit_receiving(bound)?;
        self.judge_slot()
    }

    /// What a message of so many bytes needs before it can be sent. Of the other side's ring a client
    /// knows nothing: a message that is longer than that needs guarantees for good.
    pub fn needs(&self, channel: Channel, len: usize) -> Needs
        ensures { result ≡ needs self.now channel len }
    {
        match self.would_send(channel, len) {
            Ok(()) => Needs::Nothing,
            Err(Refusal::QueueFull) => Needs::Slot,
            Err(Refusal::NoGuarantee { held }) => {
                let left = self.client_book(channel).receive_left();
                needs_more(left, (len as u64).saturating_sub(held))
            }
            Err(_) => Needs::Never,
        }
    }

    /// How much a frame of the channel may carry at most that violates the rules so: what is
    /// outstanding, what a limit leaves, or how many guarantees fit; `None` behind a Finish. A frame
    /// that violates changes nothing, so its violation may be asked about afterwards.
    pub fn allowed(&self, channel: Channel, violation: Violation) -> Option<u64>
        ensures value { result ≡ allowed (client self.now channel) (server self.now channel) violation }
        ensures exceeded { (f : Frame) → channel_of f ≡ channel → violation_at self.now f ≡ Some violation → Exceeds f violation result }
    {
        allowed(
            self.client_book(channel),
            self.server_book(channel),
            violation,
        )
    }

    /// What there is to do on a channel.
    pub fn ready_on(&self, channel: Channel) -> Ready
        ensures { result ≡ ready_on self.now channel }
    {
        let client = self.client_book(channel);
        let server = self.server_book(channel);
        let message = self.front(channel).is_some();
        Ready {
            message,
            ended: !message && server.is_ended(),
            plead: client.asked().is_some(),
            finished: client.is_finished(),
            finished_there: server.is_finished(),
        }
    }

    /// What there is to do on each channel, by their numbers.
    pub fn ready(&self) -> [Ready; CHANNELS]
        ensures { result ≡ map (ready_on self.now) Channel.ALL }
    {
        Channel::ALL.map(|channel| self.ready_on(channel))
    }
}
