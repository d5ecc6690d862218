//! What a call answers, and how what was written is handed out.
ghost use Rattle.lc_play.specs.Played.{Hands};

/// The buffer is shorter than what was written.
const SHORT: u32 = 3;

/// What a call answers.
#[repr(C)]
#[derive(Clone, Copy)]
pub struct LcmuxPlayed {
    /// As the program's exit status: 0 done, 1 memory failed, 2 the arguments or the input are bad. 3: the
    /// buffer is shorter than the sum of the two numbers, and unchanged.
    pub status: u32,
    /// How many bytes at the front of the buffer are what the program writes to its standard output.
    pub shown: u64,
    /// How many bytes behind them are the line of a fault.
    pub told: u64,
}

/// Copies both texts to the front of the buffer, where they fit.
pub(crate) fn hand_out(status: u8, shown: &[u8], told: &[u8], out: &mut [u8]) -> LcmuxPlayed
    ensures { Hands result status shown.now told.now out.old out.new }
{
    let mut played = LcmuxPlayed {
        status: SHORT,
        shown: shown.len() as u64,
        told: told.len() as u64,
    };
    if shown.len() > out.len() || told.len() > out.len() - shown.len() {
        return played;
    }
    let (front, rest) = out.split_at_mut(shown.len());
    front.copy_from_slice(shown);
    let (line, _) = rest.split_at_mut(told.len());
    line.copy_from_slice(told);
    played.status = u32::from(status);
    played
}
