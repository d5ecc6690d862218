//! Laws of two sessions that were finished, each the contract of a function that does nothing. All
//! of them rest on one premise that no part of a program can prove: that the steps of both fell
//! into one order, in which nothing was heard before it was put.
ghost use Rattle.lc_interleaving.specs.Sessions.{ReportsAreAState, FinishedSessionsKeepPromises};
ghost use Rattle.lc_interleaving.specs.Sessions.{NextFramesAreLawful, PremisesCanBeMet, RefusedFramesAreBreaches};

/// The order is a legal history of two peers, and leaves both streams as the sessions wrote, heard
/// and took them.
pub fn reports_are_a_state()
    ensures { ReportsAreAState }
{}

/// On each channel and each way: what was taken is a prefix of what was sent, the ring holds what is
/// buffered and may still come, and guarantees add up.
pub fn finished_sessions_keep_promises()
    ensures { FinishedSessionsKeepPromises }
{}

/// At each moment of the order the next frame of each stream breaks no rule where it arrives.
pub fn next_frames_are_lawful()
    ensures { NextFramesAreLawful }
{}

/// A frame that an inbox refused was not the next that the other session had put.
pub fn refused_frames_are_breaches()
    ensures { RefusedFramesAreBreaches }
{}

/// There are two finished sessions and an order of their steps of which these laws speak.
pub fn premises_can_be_met()
    ensures { PremisesCanBeMet }
{}
