//! The laws, each called once, and callers whose contract is that of the outbound stream over all that they call.
ghost use Rattle.std.specs.Prelude.{[], take, IfOk, IfSome};
ghost use Rattle.lc_mux.specs.History.{Continues};

use lc_frame::Channel;
use lc_lines::Notice;
use lc_mux::{CallError, Mux, laws};

#[test]
fn every_law_holds() {
    laws::new_sessions_continue();
    laws::writes_continue();
    laws::calls_continue();
    laws::controls_continue();
    laws::deliveries_continue();
    laws::takes_continue();
    laws::notices_continue();
    laws::closes_continue();
    laws::runs_continue();
    laws::what_is_written_is_first();
}

/// Issues guarantees and writes: the stream continues by what was written.
pub(super) fn issue_and_write(
    mux: &mut Mux,
    channel: Channel,
    amount: u32,
    out: &mut [u8],
) -> Result<usize, CallError>
    ensures { IfOk result (λ count. Continues (take count out.new) mux.old mux.new) }
{
    mux.issue(channel, amount)?;
    let count = mux.write(out);
    Ok(count)
}

/// Delivers bytes, answers the message that they may have brought by another on its channel, closes, and writes: the stream
/// continues by what was written.
pub(super) fn answer_and_close(
    mux: &mut Mux,
    channel: Channel,
    piece: &[u8],
    answer: &[u8],
    out: &mut [u8],
) -> Result<usize, CallError>
    ensures { IfOk result (λ count. Continues (take count out.new) mux.old mux.new) }
{
    let _delivery = mux.deliver(piece)?;
    let _take = mux.pop(channel)?;
    let _progress = mux.send(channel, 0, answer)?;
    mux.close();
    let count = mux.write(out);
    Ok(count)
}

/// The next notice: the stream continues, and nothing is written.
pub(super) fn notice(mux: &mut Mux) -> Option<Notice>
    ensures { IfSome result (λ _. Continues [] mux.old mux.new) }
{
    mux.next_notice()
}
