//! Laws of sessions, each the contract of a function that does nothing.
ghost use Rattle.lc_session.specs.Heard.{NewSessionsHeardNothing, RunsAreHeard};
ghost use Rattle.lc_session.specs.Played.{NewSessionsWerePlayed, SessionsArePlayedOn};
ghost use Rattle.lc_session.specs.Same.{SessionsStay};

/// A new session has heard nothing.
pub fn new_sessions_heard_nothing()
    ensures { NewSessionsHeardNothing }
{}

/// The frames that arrive in a run of a reading pump are heard after those of the runs before it.
pub fn runs_are_heard()
    ensures { RunsAreHeard }
{}

/// Parts of one session that threads give back are parts of one session.
pub fn sessions_stay()
    ensures { SessionsStay }
{}

/// A new session is one that was played, as far as it went.
pub fn new_sessions_were_played()
    ensures { NewSessionsWerePlayed }
{}

/// And what was played is one when it is played on.
pub fn sessions_are_played_on()
    ensures { SessionsArePlayedOn }
{}
