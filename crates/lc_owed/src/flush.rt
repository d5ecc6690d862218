//! What is due first, and flushing: what is due is put, one after another, while a slot is free.
ghost use Rattle.std.specs.Prelude.{◌≡◌, ◌≤◌, ◌<◌, true, false, if◌then◌else◌, Some, IfSome, OnOk, OnErr};
ghost use Rattle.std.specs.Result.{result_err};
ghost use Rattle.lc_frame.specs.Kind.{max_amount};
ghost use Rattle.lc_lines.specs.Lines.{Settles, with_scheduler};
ghost use Rattle.lc_owed.specs.Owed.{pending_on};
ghost use Rattle.lc_owed.specs.Due.{spare, is_held_up, due_on, due_among, due, due_refusal, put_due, without_due};
ghost use Rattle.lc_owed.specs.Flush.{wants_slot, Goes, PutsAll, Flushes, IsFull, IsFlushed};

use crate::due::Due;
use crate::owed::Owed;
use lc_book::Refusal;
use lc_frame::Channel;
use lc_lines::{Control, Lines};

// The guarantees of a channel that an absolve may take: those held that no permit sets aside.
#[inline]
fn spare(lines: &Lines, channel: Channel) -> u64
    ensures value { result ≡ spare lines.now.scheduler channel }
    ensures small { result ≤ max_amount }
{
    let held = lines.peer().client(channel).held();
    held.saturating_sub(lines.aside(channel).bytes)
}

// Whether permits hold up an honour: it would absolve guarantees that they set aside.
fn is_held_up(lines: &Lines, channel: Channel) -> bool
    ensures { result ≡ is_held_up lines.now.scheduler channel }
{
    let book = lines.peer().client(channel);
    match book.asked() {
        Some(target) => {
            let (target, held) = (u64::from(target), book.held());
            target < held && held - target > spare(lines, channel)
        }
        None => false,
    }
}

// Whether a refusal is for want of a slot alone.
#[inline]
fn wants_slot(refusal: Refusal) -> bool
    ensures { result ≡ wants_slot refusal }
{
    matches!(refusal, Refusal::QueueFull)
}

// Puts what is due, where nothing refuses it.
fn put(lines: &mut Lines, due: Due) -> Result<(), Refusal>
    ensures answer { result_err result ≡ due_refusal lines.old.scheduler due }
    ensures refused { OnErr result (lines.new ≡ lines.old) }
    ensures puts { OnOk result (Settles (with_scheduler lines.old (put_due lines.old.scheduler due)) lines.new) }
{
    match due {
        Due::Put(control) => lines.control(control),
        Due::Honour(channel) => match lines.honour(channel) {
            Ok(_) => Ok(()),
            Err(refusal) => Err(refusal),
        },
    }
}

// Puts what is due, or drops it where its book refuses it. `false` where it wants a slot: then nothing changes.
fn put_or_drop(lines: &mut Lines, due: Due) -> bool
    ensures goes { result ≡ true → Goes due lines.old lines.new }
    ensures same { result ≡ false → lines.new ≡ lines.old }
    ensures full { result ≡ false → IsFull lines.old.scheduler }
{
    match put(lines, due) {
        Ok(()) => true,
        Err(refusal) => !wants_slot(refusal),
    }
}

impl Owed {
    // What is due first on a channel.
    fn due_on(&self, lines: &Lines, channel: Channel) -> Option<Due>
        ensures { result ≡ due_on lines.now.scheduler channel (pending_on self.now channel) }
    {
        let pending = self.pending(channel);
        if pending.issue != 0 {
            let amount = pending.issue;
            return Some(Due::Put(Control::Issue { channel, amount }));
        }
        if let Some(bound) = pending.limit {
            return Some(Due::Put(Control::LimitReceiving { channel, bound }));
        }
        if let Some(target) = pending.plead {
            return Some(Due::Put(Control::Plead { channel, target }));
        }
        if pending.absolve != 0 {
            let amount = u64::from(pending.absolve).min(spare(lines, channel)) as u32;
            return Some(Due::Put(Control::Absolve { channel, amount }));
        }
        if pending.honour && !is_held_up(lines, channel) {
            return Some(Due::Honour(channel));
        }
        None
    }

    // What is due first on these channels.
    fn due_among(&self, lines: &Lines, channels: &[Channel]) -> Option<Due>
        ensures { result ≡ due_among self.now lines.now.scheduler channels.now }
    {
        'channels: for at in 0..channels.len() {
            match self.due_on(lines, channels[at]) {
                Some(due) => return Some(due),
                None => {}
            }
        }
        None
    }

    /// What is due first: on the channels from the one that is served first, and then on those before it.
    pub fn due(&self, lines: &Lines) -> Option<Due>
        ensures { result ≡ due self.now lines.now.scheduler }
    {
        let channels = Channel::ALL;
        let (before, from) = channels.split_at(self.first().index());
        match self.due_among(lines, from) {
            Some(due) => Some(due),
            None => self.due_among(lines, before),
        }
    }

    /// As [`Owed::flush`], where the policies make no calls.
    pub fn put_all(&mut self, lines: &mut Lines)
        ensures puts { PutsAll self.old lines.old self.new lines.new }
        ensures end { IsFlushed self.new lines.new.scheduler }
    {
        'frames: while let Some(due) = self.due(lines) {
            if !put_or_drop(lines, due) {
                self.serve_first(due.channel());
                return;
            }
            self.remove(due);
        }
    }

    /// The policies make the calls that are due by them, and then what is due is put, one after another, while a slot is
    /// free for a control frame that no permit owns. What its book refuses by now is dropped: its channel is finished, its
    /// plead is met, or nothing is left of what it would absolve. Behind each frame that is put, calls that wait proceed.
    /// Afterwards nothing is pending but honours that permits hold up, or no slot is free.
    pub fn flush(&mut self, lines: &mut Lines)
        ensures flushes { Flushes self.old lines.old self.new lines.new }
        ensures end { IsFlushed self.new lines.new.scheduler }
    {
        self.call_policies(lines);
        self.put_all(lines);
    }
}
