//! Pending control frames, once the lines of a session changed.
ghost use Rattle.std.specs.Prelude.{◌≡◌, true, false};
ghost use Rattle.lc_lines.specs.Closing.{IsClosed};
ghost use Rattle.lc_owed.specs.Flush.{IsFlushed};
ghost use Rattle.lc_mux.specs.Flushing.{PutsUnless, FlushesUnless};

use lc_lines::Lines;
use lc_owed::Owed;

/// What is due is put, unless this side closed the session.
pub(crate) fn put_unless(closing: bool, owed: &mut Owed, lines: &mut Lines)
    ensures puts { PutsUnless closing owed.old lines.old owed.new lines.new }
    ensures flushed { closing ≡ false → IsFlushed owed.new lines.new.scheduler }
    ensures closed { closing ≡ true → IsClosed lines.old.scheduler → IsClosed lines.new.scheduler }
{
    if !closing {
        owed.put_all(lines);
    }
}

/// The policies make the calls that are due by them, and then what is due is put, unless this side closed the session.
pub(crate) fn flush_unless(closing: bool, owed: &mut Owed, lines: &mut Lines)
    ensures flushes { FlushesUnless closing owed.old lines.old owed.new lines.new }
    ensures flushed { closing ≡ false → IsFlushed owed.new lines.new.scheduler }
    ensures closed { closing ≡ true → IsClosed lines.old.scheduler → IsClosed lines.new.scheduler }
{
    if !closing {
        owed.flush(lines);
    }
}
