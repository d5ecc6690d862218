//! The words of events, which scripts are read by, and those of frames, which are printed.
ghost use Rattle.std.specs.Prelude.{◌≡◌, IfSome};
ghost use Rattle.lc_cli.specs.Fields.{word_text};

use lc_frame::Kind;

pub(crate) const ABSOLVE: &[u8] = b"absolve";

pub(crate) const ARRIVE: &[u8] = b"arrive";

pub(crate) const DELIVER: &[u8] = b"deliver";

pub(crate) const FINISH: &[u8] = b"finish";

pub(crate) const HONOUR: &[u8] = b"honour";

pub(crate) const ISSUE: &[u8] = b"issue";

pub(crate) const LIMIT_RECEIVING: &[u8] = b"limit-receiving";

pub(crate) const LIMIT_SENDING: &[u8] = b"limit-sending";

pub(crate) const PLEAD: &[u8] = b"plead";

pub(crate) const SEND: &[u8] = b"send";

pub(crate) const TAKE: &[u8] = b"take";

/// The word of a kind of frame, in a line that names a fault.
pub(crate) fn word_of(kind: Kind) -> &'static str {
    match kind {
        Kind::Send => "send",
        Kind::Issue => "issue",
        Kind::Absolve => "absolve",
        Kind::Plead => "plead",
        Kind::LimitSending => "limit-sending",
        Kind::LimitReceiving => "limit-receiving",
        Kind::Finish => "finish",
    }
}

/// The word of an event.
#[derive(Clone, Copy)]
pub(crate) enum Word {
    Absolve,
    Arrive,
    Deliver,
    Finish,
    Honour,
    Issue,
    LimitReceiving,
    LimitSending,
    Plead,
    Send,
    Take,
}

impl Word {
    /// The word that a field is, those first that come most.
    #[inline]
    pub(crate) fn of(field: &[u8]) -> Option<Word>
        ensures { IfSome result (λ word. field.now ≡ word_text word) }
    {
        match field {
            _ if field == SEND => Some(Word::Send),
            _ if field == ARRIVE => Some(Word::Arrive),
            _ if field == ISSUE => Some(Word::Issue),
            _ if field == TAKE => Some(Word::Take),
            _ if field == DELIVER => Some(Word::Deliver),
            _ if field == ABSOLVE => Some(Word::Absolve),
            _ if field == PLEAD => Some(Word::Plead),
            _ if field == HONOUR => Some(Word::Honour),
            _ if field == FINISH => Some(Word::Finish),
            _ if field == LIMIT_SENDING => Some(Word::LimitSending),
            _ if field == LIMIT_RECEIVING => Some(Word::LimitReceiving),
            _ => None,
        }
    }
}
