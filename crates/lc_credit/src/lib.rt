//! The guarantees (send credit) of all channels, shared by the reader thread and the sending threads.
//!
//! A channel's credit is one atomic word: guarantees received minus guarantees used. The reader thread
//! raises it, and only the channel's sending handle lowers it, so no call waits for another thread and
//! none retries. A second word holds the target of a plead that the sender has not taken yet. A handle
//! that is finished waives what the word holds and what still arrives. Only [`credits`] allocates.
//!
//! # What threads share
//!
//! Two threads know a channel's guarantees: the reader thread, which receives them, and the thread
//! that sends on the channel, which uses them. `credits` makes one `CreditIn` for the reader, with all
//! channels, and a `CreditOut` for each channel's sender.
//!
//! | shared | which thread changes it, and how |
//! |---|---|
//! | credit word | the reader adds what it receives; the sender subtracts what it uses, and adds what it gives back |
//! | asked word | the reader stores a target in place of an older one; the sender swaps it with 0 |
//!
//! | not shared | whose |
//! |---|---|
//! | the sum of the guarantees received, and what the server's limit leaves | the reader's |
//! | the sums of the guarantees spent and absolved, the amount pending between its use and its frame, and, once the handle is finished, the amount waived | the sender's |
//!
//! Each change of a word is one atomic, sequentially consistent step, and no call depends on winning a
//! race: only the sender lowers its word, so what it loaded stays enough for what it then subtracts.
//! The kinds of steps are: on the credit word a load and an addition by the reader, a load, a
//! subtraction and an addition by the sender, and a last load when both settle; on the asked word a
//! store and a swap; and making, parting and joining the two sides. `rule.rt` has a type for each
//! step that changes or loads a word, and one for parting and joining. `proofs/Steps.antt` has a lemma
//! for each that the step keeps the rule.
//!
//! A use has two halves, since the frame is pushed between them: `spend` or `absolve` takes the amount
//! out of the word and leaves it pending; `confirm` counts it once the frame was pushed, and
//! `give_back` returns it to the word otherwise. Meanwhile the amount is neither held nor spent, and no
//! other call is made.
//!
//! A handle is finished by one load and one subtraction of all that was loaded. From then on it uses
//! nothing and reads no word. What still arrives stays in the word, and is counted as waived when both
//! sides settle.
#![tactic(auto)]

mod balance;
mod channel_in;
mod credit_in;
mod credit_out;
mod credit_parts;
mod history;
pub mod laws;
mod rule;

pub use balance::{Balance, settle};
pub use credit_in::CreditIn;
pub use credit_out::CreditOut;
pub use credit_parts::{CreditParts, credits};
