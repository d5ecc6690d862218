//! How a session ends.
ghost use Rattle.std.specs.Prelude.{◌≡◌, [], None, true};
ghost use Rattle.lc_lines.specs.Closing.{IsClosed};
ghost use Rattle.lc_lines.specs.Outbound.{every_channel};
ghost use Rattle.lc_mux.specs.declared.end.End.TheVariants.{Aborted, Transport};
ghost use Rattle.lc_mux.specs.Mux.{text};
ghost use Rattle.lc_mux.specs.Ends.{are_finished, is_written, is_done_writing, is_finished_there, are_finished_there, ends_in_order, over, input_over, end_by, end_input, close};

use super::Mux;
use crate::end::End;
use lc_frame::Channel;
use lc_peer::Peer;

// Whether the peer has finished a channel: it sends nothing more there.
fn is_finished_there(peer: &Peer, channel: Channel) -> bool
    ensures { result ≡ is_finished_there peer.now channel }
{
    let book = peer.server(channel);
    if book.is_finished() {
        return true;
    }
    match book.send_left() {
        Some(left) => left == 0,
        None => false,
    }
}

// Whether the peer has finished all channels.
fn are_finished_there(peer: &Peer) -> bool
    ensures { result ≡ are_finished_there peer.now every_channel }
{
    is_finished_there(peer, Channel::Reconciliation)
        && is_finished_there(peer, Channel::Data)
        && is_finished_there(peer, Channel::Overlap)
        && is_finished_there(peer, Channel::Capability)
        && is_finished_there(peer, Channel::AreaOfInterest)
        && is_finished_there(peer, Channel::PayloadRequest)
        && is_finished_there(peer, Channel::StaticToken)
}

impl Mux {
    // Whether this side has finished all channels.
    fn are_finished(&self) -> bool
        ensures { result ≡ are_finished self.now.lines.scheduler.peer every_channel }
    {
        self.lines.is_finished(Channel::Reconciliation)
            && self.lines.is_finished(Channel::Data)
            && self.lines.is_finished(Channel::Overlap)
            && self.lines.is_finished(Channel::Capability)
            && self.lines.is_finished(Channel::AreaOfInterest)
            && self.lines.is_finished(Channel::PayloadRequest)
            && self.lines.is_finished(Channel::StaticToken)
    }

    // Whether no frame is queued, and none is partly written.
    fn is_written(&self) -> bool
        ensures { result ≡ is_written self.now }
    {
        self.pending.len() == 0 && self.lines.peer().waiting() == 0
    }

    /// Whether the outbound stream ends here: this side closed the session, has finished all channels, and has written all
    /// bytes.
    pub fn is_done_writing(&self) -> bool
        ensures { result ≡ is_done_writing self.now }
    {
        self.closing && (self.is_written() && self.are_finished())
    }

    // Whether the inbound stream ends in order where it ends here.
    fn ends_in_order(&self) -> bool
        ensures { result ≡ ends_in_order self.now }
    {
        self.intake.begun() == 0 && are_finished_there(self.lines.peer())
    }

    /// Why the session is over, if it is: by the first end that it met, or in order.
    pub fn over(&self) -> Option<End>
        ensures { result ≡ over self.now }
    {
        match self.end {
            Some(end) => Some(end),
            None => {
                if self.input_ended && self.is_done_writing() {
                    Some(End::Local)
                } else {
                    None
                }
            }
        }
    }

    /// Why no bytes arrive any more, if none do: the session is over, or the peer ended its stream in order.
    pub fn input_over(&self) -> Option<End>
        ensures { result ≡ input_over self.now }
    {
        match self.over() {
            Some(end) => Some(end),
            None => {
                if self.input_ended {
                    Some(End::Remote)
                } else {
                    None
                }
            }
        }
    }

    // The session ends, unless it is over.
    fn end_by(&mut self, end: End)
        ensures { self.new ≡ end_by end self.old }
    {
        if self.over().is_none() {
            self.end = Some(end);
        }
    }

    /// The inbound stream ended. That is in order exactly where it ended between two frames, and the peer has finished all
    /// channels; else the session is over, as cut.
    pub fn end_input(&mut self)
        ensures { self.new ≡ end_input self.old }
    {
        if self.input_over().is_some() {
            return;
        }
        if self.ends_in_order() {
            self.input_ended = true;
        } else {
            self.end = Some(End::Cut);
        }
    }

    /// Aborts the session, unless it is over: from then on nothing is written, and nothing can be taken.
    pub fn abort(&mut self)
        ensures { self.new ≡ end_by Aborted self.old }
    {
        self.end_by(End::Aborted);
    }

    /// The transport failed, so the session is over, unless it was.
    pub fn fail(&mut self)
        ensures { self.new ≡ end_by Transport self.old }
    {
        self.end_by(End::Transport);
    }

    /// Closes the session, unless it is over: from then on no message is accepted and no permit granted. The calls that
    /// wait and the permits are given up, without notices; what entered the outbound queue is written, and each channel is
    /// finished as soon as a slot is free for the frame, by a Finish, and in version One by a limit of 0.
    pub fn close(&mut self)
        ensures after { self.new ≡ close self.old }
        ensures closed { over self.old ≡ None → IsClosed self.new.lines.scheduler }
    {
        if self.over().is_some() {
            return;
        }
        self.lines.close();
        self.closing = true;
    }
}
