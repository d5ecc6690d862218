//! The plays.
use super::laws::flush;
use super::same;
use lc_frame::{Channel, Frame, FrameRef, Version};
use lc_lines::{Bound, Control, Lines};
use lc_owed::{IssuePolicy, Owed, PleadPolicy};
use lc_peer::{Config, PeerFault, Refusal};
use std::alloc::Global;
use std::process::Abort;
use std::test::Fail;

/// A session of 14 slots, of which 7 are for control frames, over rings of 64 bytes.
#[derive(Drop)]
struct Play {
    lines: Lines,
    owed: Owed,
}

// A call on a channel, with a number; each is there in every line but where it is not read.
#[derive(Clone, Copy)]
struct Call<'a> {
    verb: &'a str,
    channel: Channel,
    amount: u64,
    word: &'a str,
}

// The words of a line: a verb, a channel and what else it has.
fn parsed(line: &str) -> Option<Call<'_>> {
    let mut words = line.split_whitespace();
    let verb = words.next()?;
    let channel = Channel::from_number(words.next().unwrap_or("0").parse().ok()?)?;
    let word = words.next().unwrap_or("0");
    let amount = word.parse().unwrap_or(0);
    Some(Call {
        verb,
        channel,
        amount,
        word,
    })
}

fn text(alloc: Global, text: &str) -> Option<String> {
    String::from_str(alloc, text).ok()
}

fn said(alloc: Global, answer: Result<(), Refusal>) -> Option<String> {
    let Err(refusal) = answer else {
        return text(alloc, "accepted");
    };
    match refusal.detail() {
        Some(detail) => { format!(in alloc; "refused {} {}", refusal.number(), detail.value).ok() }
        None => format!(in alloc; "refused {}", refusal.number()).ok(),
    }
}

fn frame(alloc: Global, frame: Frame) -> Option<String> {
    let number = frame.channel().number();
    match frame {
        Frame::Send { body, .. } => {
            format!(in alloc; "message {number} {}", body.as_slice().len()).ok()
        }
        Frame::Issue { amount, .. } => format!(in alloc; "issue {number} {amount}").ok(),
        Frame::Absolve { amount, .. } => format!(in alloc; "absolve {number} {amount}").ok(),
        Frame::Plead { target, .. } => format!(in alloc; "plead {number} {target}").ok(),
        Frame::LimitReceiving { bound, .. } => format!(in alloc; "limit {number} {bound}").ok(),
        Frame::LimitSending { .. } | Frame::Finish { .. } => text(alloc, "bound"),
    }
}

impl Play {
    fn new(alloc: Global) -> Result<Play, PeerFault> {
        let lines = Lines::new(
            alloc,
            Config {
                version: Version::Two,
                capacities: [64; 7],
                slots: 14,
            },
        )?;
        Ok(Play {
            lines,
            owed: Owed::new(),
        })
    }

    // The same, where no policy makes a call.
    fn by_caller(alloc: Global) -> Result<Play, PeerFault> {
        let mut play = Play::new(alloc)?;
        for channel in Channel::ALL {
            play.owed.set_issue_policy(channel, IssuePolicy::ByCaller);
            play.owed.set_plead_policy(channel, PleadPolicy::ByCaller);
        }
        Ok(play)
    }

    // Calls of the pending control frames.
    fn own(&mut self, alloc: Global, call: &Call<'_>) -> Option<String> {
        let (channel, n) = (call.channel, u32::try_from(call.amount));
        let Play { lines, owed } = self;
        match call.verb {
            "issue" => said(alloc, owed.issue(lines, channel, n.ok()?)),
            "limit" => said(alloc, owed.limit_receiving(lines, channel, call.amount)),
            "plead" => said(alloc, owed.plead(lines, channel, n.ok()?)),
            "absolve" => said(alloc, owed.absolve(lines, channel, n.ok()?)),
            "honour" => said(alloc, owed.honour(lines, channel)),
            "room" => format!(in alloc; "{}", owed.room(lines, channel)).ok(),
            "flush" => {
                flush(owed, lines);
                text(alloc, "flushed")
            }
            _ => self.policy(alloc, call),
        }
    }

    fn policy(&mut self, alloc: Global, call: &Call<'_>) -> Option<String> {
        let owed = &mut self.owed;
        let mark = u32::try_from(call.amount).ok()?;
        match call.verb {
            "always" => owed.set_issue_policy(call.channel, IssuePolicy::AtOnce),
            "below" => owed.set_issue_policy(call.channel, IssuePolicy::LowWater(mark)),
            "never" => owed.set_issue_policy(call.channel, IssuePolicy::ByCaller),
            "honours" => owed.set_plead_policy(call.channel, PleadPolicy::AtOnce),
            _ => return self.other(alloc, call),
        }
        text(alloc, "set")
    }

    // Frames that arrive, and calls of the scheduler.
    fn other(&mut self, alloc: Global, call: &Call<'_>) -> Option<String> {
        let channel = call.channel;
        let len = usize::try_from(call.amount).ok()?;
        match call.verb {
            "issued" | "pleaded" | "received" | "finished" => self.arrive(alloc, call),
            "take" => {
                let _ = self.lines.pop(channel);
                text(alloc, "taken")
            }
            "reserve" => said(alloc, self.lines.reserve(channel, 1, len).map(|_| ())),
            "back" => match self.lines.give_back(channel, len) {
                true => text(alloc, "was out"),
                false => text(alloc, "was not out"),
            },
            "send" => {
                let body = [0; 64];
                said(
                    alloc,
                    self.lines.send(channel, 1, body.get(..len)?).map(|_| ()),
                )
            }
            "finish" => said(
                alloc,
                self.lines.bound(channel, 1, Bound::Finish).map(|_| ()),
            ),
            "fill" => said(alloc, self.fill(channel)),
            "out" => frame(alloc, self.lines.next_out()?),
            _ => None,
        }
    }

    // Seven control frames enter the queue.
    fn fill(&mut self, channel: Channel) -> Result<(), Refusal> {
        for bound in 0..7 {
            let bound = 7 - bound;
            self.lines
                .control(Control::LimitReceiving { channel, bound })?;
        }
        Ok(())
    }

    fn arrive(&mut self, alloc: Global, call: &Call<'_>) -> Option<String> {
        let (channel, n) = (call.channel, u32::try_from(call.amount).ok()?);
        if n == 0 && call.verb != "finished" || n > 64 {
            return None;
        }
        let body = [0; 64];
        let frame = match call.verb {
            "issued" => FrameRef::Issue { channel, amount: n },
            "pleaded" => FrameRef::Plead { channel, target: n },
            "received" => FrameRef::Send {
                channel,
                body: body.get(..n as usize)?,
            },
            _ => FrameRef::Finish { channel },
        };
        match self.lines.arrive(frame) {
            Ok(()) => text(alloc, "arrived"),
            Err(_) => text(alloc, "violated"),
        }
    }
}

// A session answers each call with what stands behind it.
fn answers(rt: &impl Abort, alloc: Global, play: &mut Play, table: &str) {
    for line in table.lines() {
        let (case, wanted) = line.split_once(" => ").unwrap_or((line, "an answer"));
        let found = match parsed(case) {
            Some(call) => play.own(alloc, &call),
            None => None,
        };
        same(rt, line, found, wanted);
    }
}

// No slot is free: the calls of each kind are joined, and judged beside what is pending. Then they go out in their order.
const JOINED: &str = "fill 6 => accepted
issue 1 10 => accepted
issue 1 5 => accepted
issue 1 50 => refused 10 49
room 1 => 49
limit 1 20 => accepted
issue 1 8 => accepted
issue 1 13 => refused 9 12
limit 1 13 => refused 8 12
limit 1 4611686018427387905 => refused 7
plead 1 23 => refused 11 23
plead 1 9 => accepted
issue 1 2 => accepted
issue 1 0 => refused 5
flush => flushed
out => limit 6 7
flush => flushed
out => limit 6 6
out => limit 6 5
flush => flushed
out => limit 6 4
out => limit 6 3
out => limit 6 2
out => limit 6 1
out => issue 1 25
out => limit 1 10
out => plead 1 11
out => nothing
";

// What no longer applies is dropped: the sender finished its channel, or a plead is met. The channel that found no slot is
// served first.
const DROPPED: &str = "fill 6 => accepted
issue 1 30 => accepted
flush => flushed
finished 1 => arrived
issue 1 1 => refused 15
limit 1 1 => refused 15
plead 1 1 => refused 15
issue 2 20 => accepted
plead 2 5 => accepted
out => limit 6 7
flush => flushed
issue 0 3 => accepted
received 2 16 => arrived
out => limit 6 6
flush => flushed
out => limit 6 5
out => limit 6 4
out => limit 6 3
out => limit 6 2
out => limit 6 1
out => issue 2 20
out => issue 0 3
out => nothing
";

// A sender absolves what permits do not hold and messages left, and honours a plead as a whole.
const SENDER: &str = "issued 1 64 => arrived
reserve 1 30 => accepted
absolve 1 35 => refused 6 34
absolve 1 20 => accepted
absolve 1 15 => refused 6 14
absolve 1 0 => refused 5
back 1 30 => was out
absolve 1 30 => accepted
send 1 24 => accepted
out => message 1 24
reserve 1 30 => accepted
flush => flushed
out => absolve 1 10
pleaded 1 10 => arrived
honour 1 => accepted
flush => flushed
out => nothing
back 1 30 => was out
out => nothing
flush => flushed
out => absolve 1 20
honour 1 => accepted
flush => flushed
out => nothing
honours 1 => set
pleaded 1 4 => arrived
flush => flushed
out => absolve 1 6
absolve 1 4 => accepted
send 1 4 => accepted
flush => flushed
out => message 1 4
out => nothing
finish 1 => accepted
honour 1 => refused 15
absolve 1 1 => refused 15
";

// Policies issue at once, or below a mark, up to the target of the last plead.
const POLICIES: &str = "flush => flushed
out => issue 0 64
out => issue 1 64
out => issue 2 64
out => issue 3 64
out => issue 4 64
out => issue 5 64
out => issue 6 64
received 1 10 => arrived
flush => flushed
out => nothing
take 1 => taken
flush => flushed
out => issue 1 10
below 1 30 => set
received 1 34 => arrived
take 1 => taken
flush => flushed
out => nothing
received 1 1 => arrived
take 1 => taken
flush => flushed
out => issue 1 35
plead 1 20 => accepted
flush => flushed
out => plead 1 20
received 1 60 => arrived
take 1 => taken
flush => flushed
out => issue 1 16
always 1 => set
flush => flushed
out => issue 1 44
never 1 => set
received 1 20 => arrived
take 1 => taken
limit 1 7 => accepted
flush => flushed
out => limit 1 7
always 1 => set
flush => flushed
out => issue 1 7
out => nothing
";

#[test]
fn pending_calls_are_joined(rt: HostRuntime) -> Result<(), Fail> {
    let alloc = rt.alloc();
    answers(&rt, alloc, &mut Play::by_caller(alloc)?, JOINED);
    answers(&rt, alloc, &mut Play::by_caller(alloc)?, DROPPED);
    answers(&rt, alloc, &mut Play::by_caller(alloc)?, SENDER);
    answers(&rt, alloc, &mut Play::new(alloc)?, POLICIES);
    Ok(())
}
