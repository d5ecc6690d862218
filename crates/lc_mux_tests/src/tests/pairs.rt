//! Two sessions over one transport. A case names a side, `near` or `far`: `issue SIDE CHANNEL AMOUNT`, and so `limit`,
//! `plead` and `absolve`; `honour SIDE CHANNEL`; `at-once SIDE CHANNEL` (its policies issue and honour without a call);
//! `owed SIDE CHANNEL` (what is pending there: the issue, the limit, the plead, where 99 is none, the absolve, and whether
//! an honour is); `notice SIDE`; `send SIDE CHANNEL TICKET LENGTH`, `carry SIDE BYTES` (so many bytes at most that the side writes are delivered to the other), `take SIDE
//! CHANNEL`, `close SIDE`, `abort SIDE`, `fail SIDE`, `ended SIDE` (the inbound stream of the side), `done SIDE`
//! (whether its outbound stream ends).
use super::laws::{answer_and_close, issue_and_write, notice};
use lc_frame::{Channel, Version};
use lc_lines::Progress;
use lc_mux::{CallError, End, Mux};
use lc_owed::{IssuePolicy, PleadPolicy};
use lc_peer::{Config, PeerFault, Take};
use std::alloc::Global;
use std::mem;
use std::process::Abort;
use std::str::SplitWhitespace;
use std::test::Fail;

/// Both sides.
#[derive(Drop)]
struct Pair {
    near: Mux,
    far: Mux,
}

// A session whose caller issues and honours.
fn side(alloc: Global, version: Version) -> Result<Mux, PeerFault> {
    let config = Config {
        version,
        capacities: [64; 7],
        slots: 14,
    };
    let mut mux = Mux::new(alloc, config)?;
    for channel in Channel::ALL {
        mux.set_issue_policy(channel, IssuePolicy::ByCaller);
        mux.set_plead_policy(channel, PleadPolicy::ByCaller);
    }
    Ok(mux)
}

fn number(words: &mut SplitWhitespace) -> Option<usize> {
    words.next()?.parse().ok()
}

fn channel(words: &mut SplitWhitespace) -> Option<Channel> {
    Channel::from_number(words.next()?.parse().ok()?)
}

// Memory for so many bytes.
fn memory(alloc: Global, len: usize) -> Option<Vec<u8>> {
    let mut bytes = Vec::new(alloc);
    bytes.resize(len, 0).ok()?;
    Some(bytes)
}

fn text(alloc: Global, text: &str) -> Option<String> {
    String::from_str(alloc, text).ok()
}

fn name(end: End) -> &'static str {
    match end {
        End::Local => "local",
        End::Remote => "remote",
        End::Cut => "cut",
        End::Aborted => "aborted",
        End::Transport => "transport",
        End::Violated(_) => "violated",
        End::Fault(_) => "fault",
    }
}

fn error(alloc: Global, error: CallError) -> Option<String> {
    match error {
        CallError::Refused(refusal) => format!(in alloc; "refused {}", refusal.number()).ok(),
        CallError::Over(end) => text(alloc, name(end)),
    }
}

impl Pair {
    fn issue(&mut self, alloc: Global, words: &mut SplitWhitespace) -> Option<String> {
        let channel = channel(words)?;
        let amount = u32::try_from(number(words)?).ok()?;
        match issue_and_write(&mut self.near, channel, amount, &mut []) {
            Ok(_) => text(alloc, "issued"),
            Err(answer) => error(alloc, answer),
        }
    }

    // A control call that has a number.
    fn control(
        &mut self,
        alloc: Global,
        verb: &str,
        words: &mut SplitWhitespace,
    ) -> Option<String> {
        let (channel, number) = (channel(words)?, number(words)?);
        let amount = u32::try_from(number).ok()?;
        let called = match verb {
            "plead" => self.near.plead(channel, amount),
            "absolve" => self.near.absolve(channel, amount),
            _ => self.near.limit_receiving(channel, number as u64),
        };
        match called {
            Ok(()) => text(alloc, "accepted"),
            Err(answer) => error(alloc, answer),
        }
    }

    fn honour(&mut self, alloc: Global, words: &mut SplitWhitespace) -> Option<String> {
        match self.near.honour(channel(words)?) {
            Ok(()) => text(alloc, "accepted"),
            Err(answer) => error(alloc, answer),
        }
    }

    // From here on a channel issues all room at once, and honours each plead.
    fn at_once(&mut self, alloc: Global, words: &mut SplitWhitespace) -> Option<String> {
        let channel = channel(words)?;
        self.near.set_issue_policy(channel, IssuePolicy::AtOnce);
        self.near.set_plead_policy(channel, PleadPolicy::AtOnce);
        text(alloc, "set")
    }

    // What is pending on a channel: the issue, the limit, the target of the plead, the absolve, and whether an honour is.
    fn owed(&self, alloc: Global, words: &mut SplitWhitespace) -> Option<String> {
        let owed = self.near.owed(channel(words)?);
        let limit = owed.limit.unwrap_or(99);
        let plead = owed.plead.unwrap_or(99);
        format!(in alloc;
            "{} {limit} {plead} {} {}",
            owed.issue, owed.absolve, owed.honour
        )
        .ok()
    }

    fn send(&mut self, alloc: Global, words: &mut SplitWhitespace) -> Option<String> {
        let (channel, ticket) = (channel(words)?, number(words)?);
        let body = memory(alloc, number(words)?)?;
        match self.near.send(channel, ticket as u64, &body) {
            Ok(Progress::Proceeded) => text(alloc, "proceeded"),
            Ok(Progress::Waits) => text(alloc, "waits"),
            Err(answer) => error(alloc, answer),
        }
    }

    fn notice(&mut self, alloc: Global) -> Option<String> {
        match notice(&mut self.near) {
            Some(notice) => format!(in alloc; "{}", notice.ticket).ok(),
            None => text(alloc, "none"),
        }
    }

    fn carry(&mut self, alloc: Global, words: &mut SplitWhitespace) -> Option<String> {
        let mut bytes = memory(alloc, number(words)?)?;
        let count = self.near.write(&mut bytes);
        match self.far.deliver(bytes.get(..count)?) {
            Ok(delivery) => format!(in alloc; "{count} {}", delivery.frames).ok(),
            Err(end) => text(alloc, name(end)),
        }
    }

    fn take(&mut self, alloc: Global, words: &mut SplitWhitespace) -> Option<String> {
        let mut buffer = memory(alloc, 64)?;
        match self.near.take_into(channel(words)?, &mut buffer) {
            Ok(Take::Took(len)) => format!(in alloc; "{len}").ok(),
            Ok(Take::Empty) => text(alloc, "empty"),
            Ok(Take::Ended) => text(alloc, "ended"),
            Err(answer) => error(alloc, answer),
        }
    }

    fn over(&self, alloc: Global) -> Option<String> {
        match self.near.over() {
            Some(end) => text(alloc, name(end)),
            None => text(alloc, "open"),
        }
    }

    // What the near side answers.
    fn act(&mut self, alloc: Global, verb: &str, words: &mut SplitWhitespace) -> Option<String> {
        match verb {
            "issue" => return self.issue(alloc, words),
            "limit" | "plead" | "absolve" => return self.control(alloc, verb, words),
            "honour" => return self.honour(alloc, words),
            "at-once" => return self.at_once(alloc, words),
            "owed" => return self.owed(alloc, words),
            "notice" => return self.notice(alloc),
            "send" => return self.send(alloc, words),
            "carry" => return self.carry(alloc, words),
            "take" => return self.take(alloc, words),
            "done" if self.near.is_done_writing() => return text(alloc, "done"),
            "close" => self.near.close(),
            "abort" => self.near.abort(),
            "fail" => self.near.fail(),
            "ended" => self.near.end_input(),
            _ => {}
        }
        self.over(alloc)
    }

    fn answer(&mut self, alloc: Global, case: &str) -> Option<String> {
        let mut words = case.split_whitespace();
        let verb = words.next()?;
        if words.next()? == "near" {
            return self.act(alloc, verb, &mut words);
        }
        mem::swap(&mut self.near, &mut self.far);
        let answer = self.act(alloc, verb, &mut words);
        mem::swap(&mut self.near, &mut self.far);
        answer
    }
}

// Fails where there is no text, or not the one that is wanted, and names what was compared.
fn same(rt: &impl Abort, what: &str, found: Option<String>, wanted: &str) {
    let found = found.as_deref().unwrap_or("nothing");
    assert!(rt; found == wanted, "{what}: {found}, not {wanted}");
}

// Each line of a table is a case, ` => ` and its answer.
fn plays(rt: &impl Abort, alloc: Global, version: Version, table: &str) -> Result<(), PeerFault> {
    let mut pair = Pair {
        near: side(alloc, version)?,
        far: side(alloc, version)?,
    };
    for line in table.lines() {
        let (case, wanted) = line.split_once(" => ").unwrap_or((line, "an answer"));
        same(rt, line, pair.answer(alloc, case), wanted);
    }
    Ok(())
}

// A greeting has 4 bytes, an Issue 5, a Send of 5 bytes 10, and a Finish 1. Calls that wait fail by the close alone.
const CLOSES: &str = "issue far 1 10 => issued
carry far 100 => 9 1
send near 1 1 5 => proceeded
send near 1 2 9 => waits
carry near 6 => 6 0
close near => open
send near 1 3 1 => local
done near => open
carry near 100 => 15 8
done near => done
take far 1 => 5
take far 1 => ended
ended far => open
send far 1 1 5 => remote
close far => open
carry far 100 => 7 7
ended near => local
carry near 100 => local
";

// A stream that ends while a channel is unfinished was cut, and what arrived can be taken still.
const CUT: &str = "issue far 1 10 => issued
carry far 100 => 9 1
send near 1 1 5 => proceeded
carry near 100 => 14 1
ended far => cut
abort far => cut
take far 1 => 5
send far 1 1 5 => cut
carry far 100 => 0 0
fail near => transport
carry near 100 => cut
";

// After an abort nothing can be taken.
const ABORTED: &str = "issue far 1 10 => issued
carry far 100 => 9 1
send near 1 1 5 => proceeded
carry near 100 => 14 1
abort far => aborted
take far 1 => aborted
carry near 0 => aborted
";

// Of 14 slots, 7 are for control frames. Once they are taken, calls of one kind and channel are joined to one frame, which
// enters as soon as slots are free, the issue first and less of the limit behind it.
const OWED: &str = "issue near 0 1 => issued
issue near 1 1 => issued
issue near 2 1 => issued
issue near 3 1 => issued
issue near 4 1 => issued
issue near 5 1 => issued
owed near 5 => 0 99 99 0 false
issue near 6 1 => issued
owed near 6 => 0 99 99 0 false
issue near 6 2 => issued
limit near 6 20 => accepted
issue near 6 3 => issued
plead near 6 3 => accepted
plead near 6 6 => refused 11
issue near 6 62 => refused 9
owed near 6 => 5 17 3 0 false
carry near 9 => 9 1
owed near 6 => 0 17 3 0 false
carry near 12 => 12 2
owed near 6 => 0 99 99 0 false
carry near 100 => 37 7
send far 6 1 2 => proceeded
absolve far 6 9 => refused 6
honour far 6 => accepted
carry far 100 => 16 2
send far 6 2 5 => waits
take near 6 => 2
at-once near 6 => set
carry near 100 => 5 1
notice far => 2
notice far => none
";

#[test]
fn control_frames_wait_for_slots(rt: HostRuntime) -> Result<(), Fail> {
    plays(&rt, rt.alloc(), Version::Two, OWED)?;
    Ok(())
}

#[test]
fn both_sides_close(rt: HostRuntime) -> Result<(), Fail> {
    plays(&rt, rt.alloc(), Version::Two, CLOSES)?;
    Ok(())
}

#[test]
fn failures_end_a_session(rt: HostRuntime) -> Result<(), Fail> {
    plays(&rt, rt.alloc(), Version::Two, CUT)?;
    plays(&rt, rt.alloc(), Version::Two, ABORTED)?;
    Ok(())
}
