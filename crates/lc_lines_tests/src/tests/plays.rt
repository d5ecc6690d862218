//! Calls in turn, and what becomes of them. A case is a call: `send CHANNEL TICKET LENGTH`, `try CHANNEL LENGTH`,
//! `offer CHANNEL TICKET LENGTH`, `complete CHANNEL TICKET LENGTH`, `cancel CHANNEL TICKET`, `reserve CHANNEL TICKET
//! LENGTH`, `tryreserve CHANNEL LENGTH`, `use CHANNEL PERMIT LENGTH` (a message by a permit), `back CHANNEL PERMIT`,
//! `aside CHANNEL` (the permits, their guarantees, and the guarantees that are free), `issued CHANNEL AMOUNT` (guarantees
//! arrive), `pleaded CHANNEL TARGET` (a plead arrives), `limited CHANNEL BOUND` (a limit on receiving arrives), `honour
//! CHANNEL`, `absolve CHANNEL AMOUNT`, `receiving CHANNEL BOUND` (a limit on receiving is put), `limit CHANNEL TICKET
//! BOUND` and `finish CHANNEL TICKET` (bounds on sending), `out` (the next frame is taken), `left BYTES` (of the message
//! that was taken last), `notice`.
use super::{Subject, answers, same};
use lc_frame::{Channel, Frame, FrameRef, Version};
use lc_lines::{Aside, Attempt, Bound, Control, Lines, NOTICES, Notice, Outcome, Progress};
use lc_peer::{Config, Needs, PeerFault, Refusal};
use std::alloc::Global;
use std::str::SplitWhitespace;
use std::test::Fail;

/// A session's calls.
#[derive(Drop)]
pub(super) struct Play {
    lines: Lines,
}

// A session of so many slots.
pub(super) fn session(alloc: Global, slots: u32) -> Result<Play, PeerFault> {
    session_as(alloc, Version::Two, slots)
}

// The same, on streams of a version.
pub(super) fn session_as(alloc: Global, version: Version, slots: u32) -> Result<Play, PeerFault> {
    let lines = Lines::new(
        alloc,
        Config {
            version,
            capacities: [64; 7],
            slots,
        },
    );
    Ok(Play { lines: lines? })
}

fn number(words: &mut SplitWhitespace) -> Option<u64> {
    words.next()?.parse().ok()
}

fn channel(words: &mut SplitWhitespace) -> Option<Channel> {
    Channel::from_number(words.next()?.parse().ok()?)
}

// A message of so many bytes.
fn message(alloc: Global, words: &mut SplitWhitespace) -> Option<Vec<u8>> {
    let len = usize::try_from(number(words)?).ok()?;
    let mut body = Vec::new(alloc);
    body.resize(len, 0).ok()?;
    Some(body)
}

fn refused(alloc: Global, refusal: Refusal) -> Option<String> {
    format!(in alloc; "refused {}", refusal.number()).ok()
}

fn lacks(alloc: Global, needs: Needs) -> Option<String> {
    match needs {
        Needs::Guarantees(missing) => format!(in alloc; "lacks {missing}").ok(),
        Needs::Slot => text(alloc, "lacks a slot"),
        Needs::Nothing | Needs::Never => text(alloc, "never"),
    }
}

fn text(alloc: Global, text: &str) -> Option<String> {
    String::from_str(alloc, text).ok()
}

impl Play {
    fn send(&mut self, alloc: Global, words: &mut SplitWhitespace) -> Option<String> {
        let (channel, ticket) = (channel(words)?, number(words)?);
        let body = message(alloc, words)?;
        match self.lines.send(channel, ticket, &body) {
            Ok(Progress::Proceeded) => text(alloc, "proceeded"),
            Ok(Progress::Waits) => text(alloc, "waits"),
            Err(refusal) => refused(alloc, refusal),
        }
    }

    fn attempt(&mut self, alloc: Global, words: &mut SplitWhitespace) -> Option<String> {
        let channel = channel(words)?;
        let body = message(alloc, words)?;
        match self.lines.try_send(channel, &body) {
            Ok(Attempt::Succeeded) => text(alloc, "sent"),
            Ok(Attempt::Lacks(needs)) => lacks(alloc, needs),
            Err(refusal) => refused(alloc, refusal),
        }
    }

    fn offer(&mut self, alloc: Global, words: &mut SplitWhitespace) -> Option<String> {
        let (channel, ticket) = (channel(words)?, number(words)?);
        let len = usize::try_from(number(words)?).ok()?;
        match self.lines.offer(channel, ticket, len) {
            Ok(()) => text(alloc, "waits"),
            Err(refusal) => refused(alloc, refusal),
        }
    }

    fn complete(&mut self, alloc: Global, words: &mut SplitWhitespace) -> Option<String> {
        let (channel, ticket) = (channel(words)?, number(words)?);
        let body = message(alloc, words)?;
        match self.lines.complete(channel, ticket, &body) {
            Ok(Progress::Proceeded) => text(alloc, "proceeded"),
            Ok(Progress::Waits) => text(alloc, "waits"),
            Err(refusal) => refused(alloc, refusal),
        }
    }

    fn cancel(&mut self, alloc: Global, words: &mut SplitWhitespace) -> Option<String> {
        let (channel, ticket) = (channel(words)?, number(words)?);
        match self.lines.cancel(channel, ticket) {
            true => text(alloc, "waited"),
            false => text(alloc, "did not wait"),
        }
    }

    fn reserve(&mut self, alloc: Global, words: &mut SplitWhitespace) -> Option<String> {
        let (channel, ticket) = (channel(words)?, number(words)?);
        let len = usize::try_from(number(words)?).ok()?;
        match self.lines.reserve(channel, ticket, len) {
            Ok(Progress::Proceeded) => text(alloc, "granted"),
            Ok(Progress::Waits) => text(alloc, "waits"),
            Err(refusal) => refused(alloc, refusal),
        }
    }

    fn try_reserve(&mut self, alloc: Global, words: &mut SplitWhitespace) -> Option<String> {
        let channel = channel(words)?;
        let len = usize::try_from(number(words)?).ok()?;
        match self.lines.try_reserve(channel, len) {
            Ok(Attempt::Succeeded) => text(alloc, "granted"),
            Ok(Attempt::Lacks(needs)) => lacks(alloc, needs),
            Err(refusal) => refused(alloc, refusal),
        }
    }

    fn use_permit(&mut self, alloc: Global, words: &mut SplitWhitespace) -> Option<String> {
        let channel = channel(words)?;
        let len = usize::try_from(number(words)?).ok()?;
        let body = message(alloc, words)?;
        match self.lines.send_reserved(channel, len, &body) {
            Ok(()) => text(alloc, "sent"),
            Err(Refusal::NoGuarantee { held }) => format!(in alloc; "refused 4 {held}").ok(),
            Err(refusal) => refused(alloc, refusal),
        }
    }

    fn back(&mut self, alloc: Global, words: &mut SplitWhitespace) -> Option<String> {
        let channel = channel(words)?;
        let len = usize::try_from(number(words)?).ok()?;
        match self.lines.give_back(channel, len) {
            true => text(alloc, "was out"),
            false => text(alloc, "was not out"),
        }
    }

    fn aside(&mut self, alloc: Global, words: &mut SplitWhitespace) -> Option<String> {
        let channel = channel(words)?;
        let Aside { permits, bytes } = self.lines.aside(channel);
        let free = self.lines.free(channel);
        format!(in alloc; "{permits} {bytes} {free}").ok()
    }

    fn control(&mut self, alloc: Global, control: Control) -> Option<String> {
        match self.lines.control(control) {
            Ok(()) => text(alloc, "put"),
            Err(Refusal::NotHeld { held }) => format!(in alloc; "refused 6 {held}").ok(),
            Err(refusal) => refused(alloc, refusal),
        }
    }

    fn absolve(&mut self, alloc: Global, words: &mut SplitWhitespace) -> Option<String> {
        let (channel, amount) = (channel(words)?, u32::try_from(number(words)?).ok()?);
        self.control(alloc, Control::Absolve { channel, amount })
    }

    fn receiving(&mut self, alloc: Global, words: &mut SplitWhitespace) -> Option<String> {
        let (channel, bound) = (channel(words)?, number(words)?);
        self.control(alloc, Control::LimitReceiving { channel, bound })
    }

    fn limit(&mut self, alloc: Global, words: &mut SplitWhitespace) -> Option<String> {
        let (channel, ticket) = (channel(words)?, number(words)?);
        let bound = Bound::Limit(number(words)?);
        self.bound(alloc, channel, ticket, bound)
    }

    fn finish(&mut self, alloc: Global, words: &mut SplitWhitespace) -> Option<String> {
        let (channel, ticket) = (channel(words)?, number(words)?);
        self.bound(alloc, channel, ticket, Bound::Finish)
    }

    fn bound(
        &mut self,
        alloc: Global,
        channel: Channel,
        ticket: u64,
        bound: Bound,
    ) -> Option<String> {
        match self.lines.bound(channel, ticket, bound) {
            Ok(Progress::Proceeded) => text(alloc, "proceeded"),
            Ok(Progress::Waits) => text(alloc, "waits"),
            Err(refusal) => refused(alloc, refusal),
        }
    }

    fn issued(&mut self, alloc: Global, words: &mut SplitWhitespace) -> Option<String> {
        let (channel, amount) = (channel(words)?, u32::try_from(number(words)?).ok()?);
        if amount == 0 || amount > 1 << 24 {
            return None;
        }
        match self.lines.arrive(FrameRef::Issue { channel, amount }) {
            Ok(()) => text(alloc, "arrived"),
            Err(_) => text(alloc, "violated"),
        }
    }

    fn pleaded(&mut self, alloc: Global, words: &mut SplitWhitespace) -> Option<String> {
        let (channel, target) = (channel(words)?, u32::try_from(number(words)?).ok()?);
        if target > 1 << 24 {
            return None;
        }
        match self.lines.arrive(FrameRef::Plead { channel, target }) {
            Ok(()) => text(alloc, "arrived"),
            Err(_) => text(alloc, "violated"),
        }
    }

    fn limited(&mut self, alloc: Global, words: &mut SplitWhitespace) -> Option<String> {
        let (channel, bound) = (channel(words)?, number(words)?);
        if bound > 1 << 62 {
            return None;
        }
        match self
            .lines
            .arrive(FrameRef::LimitReceiving { channel, bound })
        {
            Ok(()) => text(alloc, "arrived"),
            Err(_) => text(alloc, "violated"),
        }
    }

    fn honour(&mut self, alloc: Global, words: &mut SplitWhitespace) -> Option<String> {
        match self.lines.honour(channel(words)?) {
            Ok(Some(amount)) => format!(in alloc; "absolved {amount}").ok(),
            Ok(None) => text(alloc, "absolved nothing"),
            Err(Refusal::NotHeld { held }) => format!(in alloc; "refused 6 {held}").ok(),
            Err(refusal) => refused(alloc, refusal),
        }
    }

    fn out(&mut self, alloc: Global) -> Option<String> {
        match self.lines.next_out()? {
            Frame::Send { channel, body } => {
                format!(in alloc; "{} {}", channel.number(), body.as_slice().len()).ok()
            }
            Frame::LimitSending { channel, bound } => {
                format!(in alloc; "limit {} {bound}", channel.number()).ok()
            }
            Frame::Finish { channel } => format!(in alloc; "finish {}", channel.number()).ok(),
            _ => text(alloc, "control"),
        }
    }

    fn left(&mut self, alloc: Global, words: &mut SplitWhitespace) -> Option<String> {
        self.lines
            .note_written(usize::try_from(number(words)?).ok()?);
        text(alloc, "noted")
    }

    fn notice(&mut self, alloc: Global) -> Option<String> {
        let Notice {
            channel,
            ticket,
            outcome,
        } = self.lines.next_notice()?;
        let outcome = match outcome {
            Outcome::Completed => "completed",
            Outcome::Notified => "notified",
            Outcome::Hopeless => "hopeless",
        };
        format!(in alloc; "{} {ticket} {outcome}", channel.number()).ok()
    }
}

impl Subject for Play {
    fn answer(&mut self, alloc: Global, case: &str) -> Option<String> {
        let mut words = case.split_whitespace();
        match words.next()? {
            "send" => self.send(alloc, &mut words),
            "try" => self.attempt(alloc, &mut words),
            "offer" => self.offer(alloc, &mut words),
            "complete" => self.complete(alloc, &mut words),
            "cancel" => self.cancel(alloc, &mut words),
            "reserve" => self.reserve(alloc, &mut words),
            "tryreserve" => self.try_reserve(alloc, &mut words),
            "use" => self.use_permit(alloc, &mut words),
            "back" => self.back(alloc, &mut words),
            "aside" => self.aside(alloc, &mut words),
            "absolve" => self.absolve(alloc, &mut words),
            "receiving" => self.receiving(alloc, &mut words),
            "limit" => self.limit(alloc, &mut words),
            "limited" => self.limited(alloc, &mut words),
            "issued" => self.issued(alloc, &mut words),
            "pleaded" => self.pleaded(alloc, &mut words),
            "honour" => self.honour(alloc, &mut words),
            "finish" => self.finish(alloc, &mut words),
            "out" => self.out(alloc),
            "left" => self.left(alloc, &mut words),
            "notice" => self.notice(alloc),
            _ => None,
        }
    }
}

// 16 slots: 7 for control frames, 7 of the channels' own, 2 shared. Data is channel 1, Overlap 2.
const SLOTS: &str = "issued 1 100 => arrived
issued 2 100 => arrived
send 1 1 3 => proceeded
send 1 2 3 => proceeded
send 1 3 3 => proceeded
send 1 4 3 => waits
try 1 3 => lacks a slot
send 2 5 4 => proceeded
notice => nothing
out => 1 3
notice => 1 4 completed
send 2 6 4 => waits
out => 1 3
notice => 2 6 completed
cancel 2 6 => did not wait
out => 1 3
out => 2 4
out => 1 3
out => 2 4
out => nothing
";

// What waits for guarantees waits for those alone, in line, and holds up no other channel.
const GUARANTEES: &str = "send 1 1 5 => waits
send 1 2 1 => waits
send 1 3 2 => waits
try 1 1 => lacks 1
issued 2 9 => arrived
send 2 4 9 => proceeded
try 2 7 => lacks 7
issued 1 4 => arrived
notice => nothing
cancel 1 1 => waited
notice => 1 2 completed
notice => nothing
out => 2 9
out => 1 1
notice => 1 3 completed
out => 1 2
out => nothing
";

// The messages that are queued or begun have at most 65,536 bytes together, or there is one.
const BYTES: &str = "issued 1 200000 => arrived
issued 2 200000 => arrived
issued 3 200000 => arrived
send 1 1 100000 => proceeded
send 2 2 1 => waits
out => 1 100000
left 65536 => noted
notice => nothing
left 65535 => noted
notice => 2 2 completed
left 0 => noted
send 3 3 65536 => waits
send 2 4 1 => waits
try 1 1 => lacks a slot
out => 2 1
left 0 => noted
notice => 3 3 completed
notice => nothing
out => 3 65536
left 10 => noted
notice => 2 4 completed
out => 2 1
";

// An offer that was notified holds nothing but its place, and holds up its own channel alone.
const OFFERS: &str = "issued 1 100 => arrived
issued 2 100 => arrived
offer 1 1 3 => waits
notice => 1 1 notified
send 1 2 1 => waits
send 2 3 5 => proceeded
send 2 4 5 => proceeded
send 2 5 5 => proceeded
send 2 6 5 => waits
complete 1 2 1 => waits
complete 1 1 3 => proceeded
notice => nothing
out => 2 5
notice => 2 6 completed
out => 2 5
notice => 1 2 completed
out => 2 5
out => 1 3
out => 2 5
out => 1 1
out => nothing
offer 2 7 9 => waits
offer 2 8 9 => waits
notice => 2 7 notified
notice => nothing
cancel 2 7 => waited
notice => 2 8 notified
complete 2 8 101 => waits
notice => 2 8 notified
complete 2 8 0 => refused 1
complete 2 8 2 => proceeded
notice => nothing
out => 2 2
";

// The offer of a channel that eight messages of another one followed, as many as are queued behind one in 16 slots: until
// it is completed, no other channel takes a shared slot.
const PASSED: &str = "issued 1 100 => arrived
issued 2 100 => arrived
issued 3 100 => arrived
send 2 1 1 => proceeded
out => 2 1
send 2 2 1 => proceeded
out => 2 1
send 2 3 1 => proceeded
out => 2 1
send 2 4 1 => proceeded
out => 2 1
send 2 5 1 => proceeded
out => 2 1
send 2 6 1 => proceeded
out => 2 1
send 2 7 1 => proceeded
out => 2 1
send 2 8 1 => proceeded
out => 2 1
offer 1 9 3 => waits
notice => 1 9 notified
send 2 10 1 => proceeded
send 2 11 1 => waits
send 3 12 1 => proceeded
send 3 13 1 => waits
notice => nothing
complete 1 9 3 => proceeded
notice => 2 11 completed
notice => 3 13 completed
notice => nothing
";

// The same until a frame leaves the queue, though the offer does not come.
const PASSED_UNTIL_WRITTEN: &str = "issued 1 100 => arrived
issued 2 100 => arrived
issued 3 100 => arrived
send 2 1 1 => proceeded
out => 2 1
send 2 2 1 => proceeded
out => 2 1
send 2 3 1 => proceeded
out => 2 1
send 2 4 1 => proceeded
out => 2 1
send 2 5 1 => proceeded
out => 2 1
send 2 6 1 => proceeded
out => 2 1
send 2 7 1 => proceeded
out => 2 1
send 2 8 1 => proceeded
out => 2 1
offer 1 9 3 => waits
notice => 1 9 notified
send 2 10 1 => proceeded
send 3 11 1 => proceeded
send 3 12 1 => waits
send 2 13 1 => waits
cancel 2 13 => waited
out => 2 1
notice => 3 12 completed
notice => nothing
send 3 14 1 => proceeded
complete 1 9 3 => proceeded
";

// A channel is passed after seven messages of another one and one that is queued, not after six; and where nothing is
// queued no slot is kept.
const NOT_PASSED: &str = "issued 1 100 => arrived
issued 2 100 => arrived
issued 3 100 => arrived
send 2 1 1 => proceeded
out => 2 1
send 2 2 1 => proceeded
out => 2 1
send 2 3 1 => proceeded
out => 2 1
send 2 4 1 => proceeded
out => 2 1
send 2 5 1 => proceeded
out => 2 1
send 2 6 1 => proceeded
out => 2 1
offer 1 9 3 => waits
notice => 1 9 notified
send 2 10 1 => proceeded
send 2 11 1 => proceeded
send 2 12 1 => waits
cancel 1 9 => waited
notice => 2 12 completed
out => 2 1
out => 2 1
out => 2 1
reserve 2 13 1 => granted
offer 1 14 3 => waits
notice => 1 14 notified
send 2 15 1 => proceeded
send 2 16 1 => waits
";

// An offer that cannot proceed any more, once its message is handed over, waits again at its place.
const AGAIN: &str = "issued 1 100 => arrived
issued 2 200000 => arrived
offer 1 1 60 => waits
notice => 1 1 notified
send 2 2 65500 => proceeded
complete 1 1 60 => waits
notice => nothing
send 2 3 1 => waits
out => 2 65500
notice => nothing
left 0 => noted
notice => 1 1 notified
notice => 2 3 completed
complete 1 1 60 => proceeded
out => 2 1
out => 1 60
";

// A call that will never proceed is given up, one after another.
const HOPELESS: &str = "send 1 1 5 => waits
send 1 2 6 => waits
limited 1 4 => arrived
notice => 1 1 hopeless
notice => 1 2 hopeless
notice => nothing
finish 1 3 => proceeded
send 1 4 5 => refused 15
send 2 5 0 => refused 1
send 2 6 1048577 => refused 2
out => finish 1
out => nothing
";

#[test]
fn a_channel_has_a_slot_of_its_own(rt: HostRuntime) -> Result<(), Fail> {
    let alloc = rt.alloc();
    answers(&rt, alloc, &mut session(alloc, 16)?, SLOTS);
    Ok(())
}

#[test]
fn calls_wait_for_guarantees_in_line(rt: HostRuntime) -> Result<(), Fail> {
    let alloc = rt.alloc();
    answers(&rt, alloc, &mut session(alloc, 14)?, GUARANTEES);
    Ok(())
}

#[test]
fn long_messages_wait_for_bytes(rt: HostRuntime) -> Result<(), Fail> {
    let alloc = rt.alloc();
    answers(&rt, alloc, &mut session(alloc, 64)?, BYTES);
    Ok(())
}

#[test]
fn an_offer_is_completed_once_it_is_notified(rt: HostRuntime) -> Result<(), Fail> {
    let alloc = rt.alloc();
    answers(&rt, alloc, &mut session(alloc, 16)?, OFFERS);
    Ok(())
}

#[test]
fn a_burst_of_others_does_not_pass_an_offer(rt: HostRuntime) -> Result<(), Fail> {
    let alloc = rt.alloc();
    for script in [PASSED, PASSED_UNTIL_WRITTEN, NOT_PASSED] {
        answers(&rt, alloc, &mut session(alloc, 16)?, script);
    }
    Ok(())
}

#[test]
fn an_offer_waits_again(rt: HostRuntime) -> Result<(), Fail> {
    let alloc = rt.alloc();
    answers(&rt, alloc, &mut session(alloc, 64)?, AGAIN);
    Ok(())
}

#[test]
fn what_never_proceeds_is_given_up(rt: HostRuntime) -> Result<(), Fail> {
    let alloc = rt.alloc();
    answers(&rt, alloc, &mut session(alloc, 14)?, HOPELESS);
    Ok(())
}

// Where more calls proceed than there are entries for notices, the others do once notices are taken.
#[test]
fn notices_are_taken_in_order(rt: HostRuntime) -> Result<(), Fail> {
    let alloc = rt.alloc();
    let mut play = session(alloc, 128)?;
    for ticket in 0..NOTICES + 3 {
        let case = format!(in alloc; "send 1 {ticket} 1")?;
        same(&rt, "a call", play.answer(alloc, case.as_str()), "waits");
    }
    same(
        &rt,
        "guarantees",
        play.answer(alloc, "issued 1 100"),
        "arrived",
    );
    for ticket in 0..NOTICES + 3 {
        let wanted = format!(in alloc; "1 {ticket} completed")?;
        same(
            &rt,
            "a notice",
            play.answer(alloc, "notice"),
            wanted.as_str(),
        );
    }
    same(&rt, "no notice", play.answer(alloc, "notice"), "nothing");
    Ok(())
}

#[test]
fn a_session_has_fourteen_slots(rt: HostRuntime) {
    let alloc = rt.alloc();
    let found = text(
        alloc,
        if session(alloc, 13).is_err() {
            "none"
        } else {
            "some"
        },
    );
    same(&rt, "13 slots", found, "none");
}
