//! Control calls, whose frames enter the outbound queue before messages that wait.
ghost use Rattle.std.specs.Prelude.{◌≡◌, if◌then◌else◌, is_ok, None, Some, IfOk, IfErr, OnOk};
ghost use Rattle.std.specs.Result.{result_err};
ghost use Rattle.std.specs.Option.{option_or};
ghost use Rattle.lc_frame.specs.declared.frame.Frame.TheVariants.{Absolve};
ghost use Rattle.lc_peer.specs.Calls.{refusal, refusal_by_books, put, due};
ghost use Rattle.lc_peer.specs.Peer.{client};
ghost use Rattle.lc_book.specs.declared.fault.Refusal.TheVariants.{QueueFull};
ghost use Rattle.lc_lines.specs.Permits.{beyond_permits};
ghost use Rattle.lc_frame.specs.Frame.{channel_of};
ghost use Rattle.lc_lines.specs.Scheduler.{aside, frame_of_control, control_refusal, honour_refusal, honour, put_frame};

use super::{Control, Scheduler};
use lc_book::Refusal;
use lc_frame::Channel;
use lc_peer::Peer;

// Puts the frame of a control call.
fn put_control(peer: &mut Peer, control: Control) -> Result<(), Refusal>
    ensures answer { result_err result ≡ refusal peer.old (frame_of_control control) }
    ensures after { peer.new ≡ (if is_ok result then put peer.old (frame_of_control control) else peer.old) }
{
    match control {
        Control::Issue { channel, amount } => peer.issue(channel, amount),
        Control::Absolve { channel, amount } => peer.absolve(channel, amount),
        Control::Plead { channel, target } => peer.plead(channel, target),
        Control::LimitReceiving { channel, bound } => peer.limit_receiving(channel, bound),
    }
}

// What a control call would answer.
fn would_control(peer: &Peer, control: Control) -> Result<(), Refusal>
    ensures { result_err result ≡ refusal peer.now (frame_of_control control) }
{
    match control {
        Control::Issue { channel, amount } => peer.would_issue(channel, amount),
        Control::Absolve { channel, amount } => peer.would_absolve(channel, amount),
        Control::Plead { channel, target } => peer.would_plead(channel, target),
        Control::LimitReceiving { channel, bound } => peer.would_limit_receiving(channel, bound),
    }
}

// Why a control call is refused for which no slot is free: its books come first.
fn refuse_control(peer: &Peer, control: Control) -> Refusal
    ensures { Some result ≡ option_or (refusal_by_books peer.now (frame_of_control control)) (Some QueueFull) }
{
    match would_control(peer, control) {
        Ok(()) => Refusal::QueueFull,
        Err(refusal) => refusal,
    }
}

impl Scheduler {
    // An absolve of so much takes no guarantees that permits set aside.
    fn judge_spared(&self, channel: Channel, amount: u32) -> Result<(), Refusal>
        ensures { result_err result ≡ beyond_permits (client self.now.peer channel) (aside self.now channel) (Absolve channel amount) }
    {
        let held = self.peer.client(channel).held();
        let held = held.saturating_sub(self.aside(channel).bytes);
        if u64::from(amount) > held {
            return Err(Refusal::NotHeld { held });
        }
        Ok(())
    }

    // An absolve takes no guarantees that permits set aside. Its book comes first.
    fn spare_permits(&self, control: Control) -> Result<(), Refusal>
        ensures spared { OnOk result (beyond_permits (client self.now.peer (channel_of (frame_of_control control))) (aside self.now (channel_of (frame_of_control control))) (frame_of_control control) ≡ None) }
        ensures refused { IfErr result (λ refusal. Some refusal ≡ control_refusal self.now (frame_of_control control)) }
    {
        match control {
            Control::Absolve { channel, amount } => {
                self.peer.client(channel).judge_absolve(amount)?;
                self.judge_spared(channel, amount)
            }
            Control::Issue { .. } | Control::Plead { .. } | Control::LimitReceiving { .. } => {
                Ok(())
            }
        }
    }

    /// A control call. It is refused as at the peer, by 6 where it absolves guarantees that permits set aside, and by 13
    /// where no slot is free for a control frame.
    pub fn control(&mut self, control: Control) -> Result<(), Refusal>
        ensures answer { result_err result ≡ control_refusal self.old (frame_of_control control) }
        ensures after { self.new ≡ (if is_ok result then put_frame self.old (frame_of_control control) else self.old) }
    {
        self.spare_permits(control)?;
        if self.has_control_slot() {
            return put_control(&mut self.peer, control);
        }
        Err(refuse_control(&self.peer, control))
    }

    // Why an honour is refused.
    fn judge_honour(&self, channel: Channel) -> Result<(), Refusal>
        ensures { result_err result ≡ honour_refusal self.now channel }
    {
        let Some(amount) = self.peer.client(channel).judge_honour()? else {
            return Ok(());
        };
        self.judge_spared(channel, amount)?;
        if self.has_control_slot() {
            Ok(())
        } else {
            Err(Refusal::QueueFull)
        }
    }

    /// Honours the plead that a channel keeps: what is held above its target is absolved, and the answer is that amount.
    /// Refused by 15, by 6 where guarantees would be absolved that permits set aside, and by 13 where any would and no
    /// slot is free for a control frame; then the plead is kept.
    pub fn honour(&mut self, channel: Channel) -> Result<Option<u32>, Refusal>
        ensures answer { result_err result ≡ honour_refusal self.old channel }
        ensures amount { IfOk result (λ amount. amount ≡ due self.old.peer channel) }
        ensures after { self.new ≡ (if is_ok result then honour self.old channel else self.old) }
    {
        self.judge_honour(channel)?;
        self.peer.honour(channel)
    }
}
