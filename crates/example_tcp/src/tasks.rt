//! What the threads of a side do, each with ends of its own. No message of the other side is
//! trusted: what no honest side sends ends the sync, and no more is kept than a limit allows.
ghost use Rattle.lc_inbox.specs.Sides.{IsSameSide};
ghost use Rattle.lc_outbox.specs.Outbox.{IsSameOutbox};

use crate::calls::{end_sending, issue, send, take};
use crate::fault::Fault;
use crate::items::{LONGEST, MOST, checked, find, name_of};
use lc_session::{RecvEnd, SendEnd};
use std::alloc::Global;
use std::sync::Wait;

/// The bytes of each ring.
pub const RING: u32 = 256;

/// Reconciliation: sends the name of each item.
pub fn offer<R: Wait>(rt: &R, names: &mut SendEnd, items: &str) -> Result<(), Fault>
    ensures { IsSameOutbox names.old names.new }
{
    for item in items.lines() {
        send(rt, names, name_of(item).as_bytes())?;
    }
    end_sending(rt, names)
}

// Asks for the next item that the other side names, where this one lacks it. Whether there was one.
fn ask_next<R: Wait>(
    rt: &R,
    names: &mut RecvEnd,
    requests: &mut SendEnd,
    items: &str,
) -> Result<bool, Fault>
    ensures names { IsSameSide names.old names.new }
    ensures requests { IsSameOutbox requests.old requests.new }
{
    let mut name = [0; LONGEST];
    let Some(len) = take(rt, names, &mut name)? else {
        return Ok(false);
    };
    let name = name.get(..len).ok_or(Fault::NoSync)?;
    if find(items, name).is_none() {
        send(rt, requests, name)?;
    }
    Ok(true)
}

/// Asks for each item that the other side names and this one lacks.
pub fn ask<R: Wait>(
    rt: &R,
    names: &mut RecvEnd,
    requests: &mut SendEnd,
    items: &str,
) -> Result<(), Fault>
    ensures names { IsSameSide names.old names.new }
    ensures requests { IsSameOutbox requests.old requests.new }
{
    issue(rt, names, RING)?;
    for _ in 0..MOST {
        if !ask_next(rt, names, requests, items)? {
            return end_sending(rt, requests);
        }
    }
    Err(Fault::NoSync)
}

// Sends the next item that the other side asks for. Whether there was one.
fn serve_next<R: Wait>(
    rt: &R,
    requests: &mut RecvEnd,
    answers: &mut SendEnd,
    items: &str,
) -> Result<bool, Fault>
    ensures requests { IsSameSide requests.old requests.new }
    ensures answers { IsSameOutbox answers.old answers.new }
{
    let mut name = [0; LONGEST];
    let Some(len) = take(rt, requests, &mut name)? else {
        return Ok(false);
    };
    let name = name.get(..len).ok_or(Fault::NoSync)?;
    let item = find(items, name).ok_or(Fault::NoSync)?;
    send(rt, answers, item.as_bytes())?;
    Ok(true)
}

/// Sends each item that the other side asks for.
pub fn serve<R: Wait>(
    rt: &R,
    requests: &mut RecvEnd,
    answers: &mut SendEnd,
    items: &str,
) -> Result<(), Fault>
    ensures requests { IsSameSide requests.old requests.new }
    ensures answers { IsSameOutbox answers.old answers.new }
{
    issue(rt, requests, RING)?;
    for _ in 0..MOST {
        if !serve_next(rt, requests, answers, items)? {
            return end_sending(rt, answers);
        }
    }
    Err(Fault::NoSync)
}

/// Collects the items that come, a line each.
pub fn collect<R: Wait>(
    rt: &R,
    alloc: Global,
    answers: &mut RecvEnd,
    items: &str,
) -> Result<String, Fault>
    ensures { IsSameSide answers.old answers.new }
{
    issue(rt, answers, RING)?;
    let mut collected = String::new(alloc);
    let mut message = [0; LONGEST];
    for _ in 0..MOST {
        let Some(len) = take(rt, answers, &mut message)? else {
            return Ok(collected);
        };
        let message = message.get(..len).ok_or(Fault::NoSync)?;
        let item = checked(message, items, collected.as_str()).ok_or(Fault::NoSync)?;
        collected.push_str(item)?;
        collected.push('\n')?;
    }
    Err(Fault::NoSync)
}
