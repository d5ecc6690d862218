//! Scripts: one event a line.
ghost use Rattle.std.specs.Prelude.{◌≡◌, ◌<◌, ◌≤◌, ◌+◌, ◌⊎◌, ℕ, List, ◌∷◌, ◌++◌, Ok, Err, IfOk, IfSome, OnOk, MatchOption, length, take, drop, slice_index, true};
ghost use Rattle.std.specs.Option.{option_map};
ghost use Rattle.std.specs.Fmt.{decimal};
ghost use Rattle.lc_frame.specs.Channel.{number_of};
ghost use Rattle.hex.specs.Hex.{decode_of};
ghost use Rattle.lc_cli.specs.Script.{side_text, WritesBody, WritesAct, WritesEvent, IsSkipped, IsLine, IsScript};
ghost use Rattle.lc_cli.specs.declared.fault.Status.TheVariants.{Bad};
ghost use Rattle.lc_cli.specs.Fault.{status_of};
ghost use Rattle.lc_cli.specs.Fields.{NoneBelow, EndsLine, IsCut, Reads, added, word_text};

use crate::decoding::{decode, digit_count};
use crate::fault::Fault;
use crate::number::parse_decimal;
use crate::words::Word;
use lc_frame::{Body, Channel};
use lc_world::{Act, Event, Side};
use std::alloc::{AllocError, Global};
use std::str;

// Why a line gives no event.
#[derive(Clone, Copy)]
enum LineFault {
    Bad,
    OutOfMemory,
}

/// The events of a script, in order. Empty lines and lines that begin with `#` are skipped.
pub fn parse_script(alloc: Global, script: &[u8]) -> Result<Vec<Event>, Fault>
    ensures events { IfOk result (λ events. IsScript script.now events.items) }
    ensures usage { ¬ (result ≡ Err Fault.Usage) }
{
    let mut events = Vec::new(alloc);
    let mut rest = script;
    let mut number = 0u64;
    'lines: while !rest.is_empty() {
        number += 1;
        let (event, others) = match read_line(alloc, rest) {
            Ok(read) => read,
            Err(LineFault::Bad) => return Err(bad_line(rest, number)),
            Err(LineFault::OutOfMemory) => return Err(Fault::OutOfMemory),
        };
        add(&mut events, event)?;
        rest = others;
    }
    Ok(events)
}

// The fault of the bad line that a script begins with, by how the line ends.
fn bad_line(script: &[u8], line: u64) -> Fault
    ensures { status_of result ≡ Bad × ¬ (result ≡ Fault.Usage) }
{
    let (text, _) = cut(script, end_of_line(script));
    match text {
        [.., b'\r'] => Fault::CarriageReturn { line },
        _ => Fault::BadLine { line },
    }
}

fn add(events: &mut Vec<Event>, event: Option<Event>) -> Result<(), AllocError>
    ensures { OnOk result (events.new.items ≡ events.old.items ++ added event) }
{
    if let Some(event) = event {
        events.push(event)?;
    }
    Ok(())
}

// Reads a line, and answers the event that it writes, if it writes one, and what stands behind it.
fn read_line(alloc: Global, script: &[u8]) -> Result<(Option<Event>, &[u8]), LineFault>
    requires { 0 < length script.now }
    ensures { IfOk result (λ read. (line : List ℕ) × (IsLine line read.0 × EndsLine script.now line read.1.now)) }
{
    match script {
        [b'\n', others @ ..] => Ok((None, others)),
        [b'#', ..] => Ok((None, behind_comment(script))),
        _ => {
            let mut fields = Fields::new(script);
            let event = fields.event(alloc)?;
            Ok((Some(event), fields.rest))
        }
    }
}

// Where the line ends, unless the script does.
fn end_of_line(bytes: &[u8]) -> Option<usize>
    ensures { MatchOption result (NoneBelow 10 bytes.now (length bytes.now)) (λ k. (k < length bytes.now) × (slice_index bytes.now k ≡ 10) × NoneBelow 10 bytes.now k) }
{
    'bytes: for place in 0..bytes.len() {
        if bytes[place] == b'\n' {
            return Some(place);
        }
    }
    None
}

// Where a field ends whose bytes up to a place are known, unless the script does.
#[inline]
fn end_of_field(bytes: &[u8], known: usize) -> Option<usize>
    ensures { IfSome result (λ k. (known ≤ k) × (k < length bytes.now) × ((slice_index bytes.now k ≡ 32) ⊎ (slice_index bytes.now k ≡ 10))) }
{
    'bytes: for place in known..bytes.len() {
        if bytes[place] == b' ' || bytes[place] == b'\n' {
            return Some(place);
        }
    }
    None
}

// What stands before a place, and what stands behind it. With no place all stands before it.
#[inline]
fn cut(bytes: &[u8], place: Option<usize>) -> (&[u8], Option<&[u8]>)
    requires { IfSome place (λ k. k < length bytes.now) }
    ensures before { MatchOption place (result.0.now ≡ bytes.now) (λ k. result.0.now ≡ take k bytes.now) }
    ensures behind { option_map (λ rest. rest.now) result.1 ≡ option_map (λ k. drop (k + 1) bytes.now) place }
{
    match place {
        Some(place) => (&bytes[..place], Some(&bytes[place + 1..])),
        None => (bytes, None),
    }
}

// The body that digits write.
fn body_of(alloc: Global, digits: &[u8]) -> Result<Body, LineFault>
    ensures { IfOk result (λ body. decode_of digits.now ≡ Ok body) }
{
    let bytes = decode(alloc, digits).or(Err(LineFault::OutOfMemory))?;
    bytes.map(Body::from_vec).ok_or(LineFault::Bad)
}

// The channel whose number is a field.
fn channel_of(field: &[u8]) -> Option<Channel>
    ensures { IfSome result (λ channel. field.now ≡ decimal (number_of channel)) }
{
    match field {
        [digit @ b'0'..=b'9'] => Channel::from_number(*digit - b'0'),
        _ => None,
    }
}

// A part of a line that is no text makes the line a bad one.
fn check_text(part: &[u8]) -> Result<(), LineFault> {
    str::from_utf8(part).or(Err(LineFault::Bad))?;
    Ok(())
}

// What stands behind a comment.
fn behind_comment(script: &[u8]) -> &[u8]
    requires { slice_index script.now 0 ≡ 35 }
    ensures { (line : List ℕ) × (IsSkipped line × EndsLine script.now line result.now) }
{
    match end_of_line(script) {
        Some(place) => script.split_at(place + 1).1,
        None => &[],
    }
}

// A script from a field of a line on. Fields are separated by single spaces: two spaces have an empty
// field between them. Each field is compared byte by byte with what it may be, so that a line that
// is no UTF-8 is a bad one. A line's end is met where its last field ends, and not looked for before.
#[derive(Clone, Copy)]
struct Fields<'a> {
    rest: &'a [u8],
    // Whether the line has a field that is not read yet.
    has_more: bool,
}

impl<'a> Fields<'a> {
    fn new(rest: &'a [u8]) -> Fields<'a>
        ensures { (result.rest.now ≡ rest.now) × (result.has_more ≡ true) }
    {
        Fields {
            rest,
            has_more: true,
        }
    }

    fn event(&mut self, alloc: Global) -> Result<Event, LineFault>
        ensures { IfOk result (λ event. (line : List ℕ) × (WritesEvent event line × EndsLine self.old.rest.now line self.new.rest.now)) }
    {
        let side = self.side()?;
        let act = self.act(alloc)?;
        if self.has_more {
            return Err(LineFault::Bad);
        }
        Ok(Event { side, act })
    }

    // What is left of the script, from a field on.
    fn ahead(&self) -> Result<&'a [u8], LineFault>
        ensures { IfOk result (λ rest. (rest.now ≡ self.now.rest.now) × (self.now.has_more ≡ true)) }
    {
        if self.has_more {
            Ok(self.rest)
        } else {
            Err(LineFault::Bad)
        }
    }

    // Reads the field up to the place of its end. With no place it ends with the script.
    #[inline]
    fn field_to(&mut self, place: Option<usize>) -> &'a [u8]
        requires { IfSome place (λ k. (k < length self.old.rest.now) × ((slice_index self.old.rest.now k ≡ 32) ⊎ (slice_index self.old.rest.now k ≡ 10))) }
        ensures field { MatchOption place (result.now ≡ self.old.rest.now) (λ k. result.now ≡ take k self.old.rest.now) }
        ensures reads { IsCut self.old.rest.now result.now self.new.has_more self.new.rest.now }
    {
        let rest = self.rest;
        self.has_more = match place {
            Some(place) => rest[place] == b' ',
            None => false,
        };
        let (field, others) = cut(rest, place);
        self.rest = match others {
            Some(others) => others,
            None => &[],
        };
        field
    }

    #[inline]
    fn field(&mut self) -> Result<&'a [u8], LineFault>
        ensures { IfOk result (λ field. Reads self.old self.new field.now) }
    {
        let rest = self.ahead()?;
        Ok(self.field_to(end_of_field(rest, 0)))
    }

    fn side(&mut self) -> Result<Side, LineFault>
        ensures { IfOk result (λ side. Reads self.old self.new (side_text side)) }
    {
        match self.field()? {
            [b'A'] => Ok(Side::A),
            [b'B'] => Ok(Side::B),
            _ => Err(LineFault::Bad),
        }
    }

    fn act(&mut self, alloc: Global) -> Result<Act, LineFault>
        ensures { IfOk result (λ act. (text : List ℕ) × (WritesAct act text × Reads self.old self.new text)) }
    {
        match self.word()? {
            Word::Arrive => Ok(Act::Arrive),
            Word::Deliver => Ok(Act::Deliver {
                count: self.amount()?,
            }),
            word => self.act_on_channel(alloc, word),
        }
    }

    fn word(&mut self) -> Result<Word, LineFault>
        ensures { IfOk result (λ word. Reads self.old self.new (word_text word)) }
    {
        Word::of(self.field()?).ok_or(LineFault::Bad)
    }

    // An act that concerns a channel, behind its word.
    fn act_on_channel(&mut self, alloc: Global, word: Word) -> Result<Act, LineFault>
        ensures { IfOk result (λ act. (text : List ℕ) × (WritesAct act (word_text word ++ (32 ∷ text)) × Reads self.old self.new text)) }
    {
        let channel = self.channel()?;
        match word {
            Word::Send => Ok(Act::Send {
                channel,
                body: self.body(alloc)?,
            }),
            Word::Issue => Ok(Act::Issue {
                channel,
                amount: self.amount()?,
            }),
            Word::Plead => Ok(Act::Plead {
                channel,
                target: self.amount()?,
            }),
            Word::Absolve => Ok(Act::Absolve {
                channel,
                amount: self.amount()?,
            }),
            Word::Honour => Ok(Act::Honour { channel }),
            Word::LimitSending => Ok(Act::LimitSending {
                channel,
                bound: self.bound()?,
            }),
            Word::LimitReceiving => Ok(Act::LimitReceiving {
                channel,
                bound: self.bound()?,
            }),
            Word::Finish => Ok(Act::Finish { channel }),
            Word::Take => Ok(Act::Take { channel }),
            Word::Arrive | Word::Deliver => Err(LineFault::Bad),
        }
    }

    fn channel(&mut self) -> Result<Channel, LineFault>
        ensures { IfOk result (λ channel. Reads self.old self.new (decimal (number_of channel))) }
    {
        channel_of(self.field()?).ok_or(LineFault::Bad)
    }

    fn amount(&mut self) -> Result<u32, LineFault>
        ensures { IfOk result (λ amount. Reads self.old self.new (decimal amount)) }
    {
        u32::try_from(self.bound()?).or(Err(LineFault::Bad))
    }

    fn bound(&mut self) -> Result<u64, LineFault>
        ensures { IfOk result (λ bound. Reads self.old self.new (decimal bound)) }
    {
        let digits = str::from_utf8(self.field()?).or(Err(LineFault::Bad))?;
        parse_decimal(digits).ok_or(LineFault::Bad)
    }

    // The bytes of a body. Most are nothing but digits up to the line's end, and so are text.
    fn body(&mut self, alloc: Global) -> Result<Body, LineFault>
        ensures { IfOk result (λ body. (field : List ℕ) × (WritesBody body field × Reads self.old self.new field)) }
    {
        let rest = self.ahead()?;
        let count = digit_count(rest);
        if count < rest.len() && rest[count] != b'\n' {
            return self.other_body(alloc, count);
        }
        match self.field_to((count < rest.len()).then_some(count)) {
            [] => Err(LineFault::Bad),
            digits => body_of(alloc, digits),
        }
    }

    // A body that is `-`, or a bad one, behind so many digits, which are text and are not looked at again.
    // No memory is asked for where the line is no text.
    fn other_body(&mut self, alloc: Global, digits: usize) -> Result<Body, LineFault>
        requires within { digits ≤ length self.old.rest.now }
        requires had { self.old.has_more ≡ true }
        ensures { IfOk result (λ body. (field : List ℕ) × (WritesBody body field × Reads self.old self.new field)) }
    {
        let end = end_of_field(self.rest, digits);
        let (field, _) = cut(self.rest, end);
        check_text(&field[digits..])?;
        let field = self.field_to(end);
        if self.has_more {
            let (others, _) = cut(self.rest, end_of_line(self.rest));
            check_text(others)?;
        }
        match field {
            [b'-'] => Ok(Body::from_vec(Vec::new(alloc))),
            [] => Err(LineFault::Bad),
            digits => body_of(alloc, digits),
        }
    }
}
