//! The lock on an inbox: each of the two sides has one half, and both share a mutex by which one
//! sleeps while the other has the inbox.
ghost use Rattle.std.specs.Prelude.{◌≡◌, ◌+◌, [], ◌∷◌, ◌++◌, filter, true, false, List, IfSome, IfOk, None, Some};
ghost use Rattle.std.specs.Borrow.{sem};
ghost use Rattle.lc_inbox.specs.declared.history.Entry.{Entry as AnyEntry};
ghost use Rattle.lc_inbox.specs.declared.rule.View.TheVariants.{Both};
ghost use Rattle.lc_history.specs.History.{Knows};
ghost use Rattle.lc_inbox.specs.History.{is_of, IsLeftBy, Loan};
ghost use Rattle.lc_inbox.specs.Rule.{word_of, other};
ghost use Rattle.lc_inbox.specs.Sides.{IsIdle, HasTaken};
ghost use Rattle.lc_inbox.specs.Loans.{LendsInbox};

use crate::inbox_end::InboxEnd;
use crate::rule::{InboxRule, Key, Return, Seize, SeizeLast, Told, TwoSides, View};
use atomic_table::{Refused, Seat, Table};
use std::alloc::{AllocError, Global};
use std::marker::{Brand, Model};
use std::sync::{Arc, Mutex, MutexGuard, Wait};
use std::thread;

type Slot = Table<Option<InboxEnd>, View, Key, InboxRule, Global>;

const WORD: usize = 0;

/// The mutex, held. A half gets its turn as it takes the inbox, and has to hand it in to give the
/// inbox back, so it can't let the other half in before that.
#[derive(Drop)]
pub(crate) struct Turn<'a> {
    guard: MutexGuard<'a, ()>,
}

/// One half of the lock.
#[derive(Drop)]
pub(crate) struct Half {
    table: Arc<Slot, Global>,
    seat: Seat<Option<InboxEnd>, View>,
    side: bool,
}

impl Model for Half {
    ghost use Rattle.std.specs.Prelude.{◌≡◌};
    ghost use Rattle.std.specs.Arc.{arc_value};
    ghost use Rattle.lc_inbox.specs.Rule.{seen_of, turns_of, loan_of, seated_of};
    ghost use Rattle.lc_inbox.specs.Sides.{Half};

    ghost Value = { Half };

    ghost view = { λ h. record { inbox = h.seat.table_id; key = (arc_value h.table).shared.key; side = h.side; seen = seen_of h.seat.me.0; turns = turns_of h.seat.me.0; lent = loan_of h.seat.me } };

    ghost invariant = { λ h. (h.seat.table_id ≡ (arc_value h.table).shared.table_id) × (h.seat.table_id.words ≡ 1) × (h.seat.table_id.slots ≡ 1) × (h.seat.me ≡ seated_of (arc_value h.table).shared.key h.side (seen_of h.seat.me.0) (turns_of h.seat.me.0) (loan_of h.seat.me)) };
}

// The table with the inbox in its slot.
fn slot(
    alloc: Global,
    end: InboxEnd,
    key: &Key,
) -> Result<(Slot, Seat<Option<InboxEnd>, View>), AllocError>
    requires { IsLeftBy key.now end [] }
    ensures { IfOk result (λ t. (t.0.shared.table_id.words ≡ 1) × (t.0.shared.table_id.slots ≡ 1) × (t.1.table_id ≡ t.0.shared.table_id) × (t.1.me ≡ (Both key.now [] [], [])) × (t.0.shared.key ≡ key.now)) }
{
    let places = one_place(alloc, end)?;
    match Slot::new(alloc, &[0], places, key) {
        Ok(made) => Ok(made),
        Err(Refused { slots: _ }) => Err(AllocError),
    }
}

// One place, with the inbox in it.
fn one_place(alloc: Global, end: InboxEnd) -> Result<Vec<Option<InboxEnd>>, AllocError>
    ensures { IfOk result (λ v. v.items ≡ Some end ∷ []) }
{
    let mut places = Vec::with_capacity(alloc, 1)?;
    places.push_reserved(Some(end));
    Ok(places)
}

/// The two halves of a new lock.
pub(crate) fn halves(alloc: Global, end: InboxEnd, key: Key) -> Result<(Half, Half), AllocError>
    requires { IsLeftBy key end [] }
    ensures { IfOk result (λ h. (h.0 ≡ record { inbox = h.1.inbox; key = key; side = true; seen = []; turns = 0; lent = None }) × (h.1 ≡ record { inbox = h.1.inbox; key = key; side = false; seen = []; turns = 0; lent = None })) }
{
    let (table, mut seat) = slot(alloc, end, &key)?;
    let Ok(table) = Arc::new(alloc, table) else {
        return Err(AllocError);
    };
    let theirs = Arc::try_clone(&table)?;
    let receiving = table.shared.split_seat::<TwoSides>(&mut seat);
    let one = Half {
        table,
        seat,
        side: true,
    };
    let two = Half {
        table: theirs,
        seat: receiving,
        side: false,
    };
    Ok((one, two))
}

// The word while this side has the inbox.
fn word_of_side(side: bool) -> u64
    ensures { result ≡ word_of side }
{
    if side { 1 } else { 2 }
}

impl Half {
    /// Takes the inbox, as soon as the other half has not got it, by the mutex that both share.
    pub(crate) fn take<'a, R: Wait>(&mut self, rt: &R, turns: &'a Mutex<()>) -> Turn<'a>
        requires { self.old.lent ≡ None }
        ensures { HasTaken self.old self.new }
    {
        let guard = turns.lock(rt);
        for _ in rt.forever() {
            if self.try_take() {
                return Turn { guard };
            }
            thread::yield_now();
        }
        unreachable!()
    }

    // Takes the inbox, if the other half has not got it.
    fn try_take(&mut self) -> bool
        requires { self.old.lent ≡ None }
        ensures taken { result ≡ true → HasTaken self.old self.new }
        ensures not { result ≡ false → self.new ≡ self.old }
    {
        let word = word_of_side(self.side);
        let found = self
            .table
            .shared
            .compare_exchange::<Seize>(&mut self.seat, WORD, 0, word);
        found == 0
    }

    /// The inbox, in its place, while this half has it.
    pub(crate) fn inbox(&mut self) -> &mut InboxEnd
        requires { (loan : Loan) × (self.old.lent ≡ Some loan) }
        ensures* writes_back { sem 𝓛 (LendsInbox self.entry result) }
        ensures value { IfSome self.old.lent (λ loan. result.now ≡ loan.held) }
    {
        match self.seat.slot_mut(&self.table.shared, 0) {
            Some(end) => end,
            None => unreachable!(),
        }
    }

    /// Gives the inbox back, as it is after what this half did with it. The turn ends with this call, so after
    /// that.
    pub(crate) fn give<N: Told, G>(&mut self, _turn: Turn<'_>, _told: &G)
        requires own { filter (is_of (other self.old.side)) N.entries ≡ [] }
        requires fits { (loan : Loan) × (self.old.lent ≡ Some loan) × IsLeftBy self.old.key loan.held (loan.history ++ N.entries) }
        ensures { IfSome self.old.lent (λ loan. self.new ≡ record self.old { seen = loan.history ++ N.entries; lent = None }) }
    {
        self.table
            .shared
            .store::<Return<N>>(&mut self.seat, WORD, 0);
    }

    /// Gives the inbox back as it was.
    pub(crate) fn give_same(&mut self, turn: Turn<'_>)
        requires fits { (loan : Loan) × (self.old.lent ≡ Some loan) × IsLeftBy self.old.key loan.held loan.history }
        ensures { IfSome self.old.lent (λ loan. self.new ≡ record self.old { seen = loan.history; lent = None }) }
    {
        self.give::<Brand, ()>(turn, &());
    }

    /// Takes the inbox for good, from the reading half and the receiving half of its lock. It is
    /// there, since neither of them has it.
    pub(crate) fn take_last(self, receiving: Half) -> InboxEnd
        requires one { self.inbox ≡ receiving.inbox }
        requires reading { IsIdle true self }
        requires receiving { IsIdle false receiving }
        ensures { (history : List AnyEntry) × Knows (is_of true) self.seen history × Knows (is_of false) receiving.seen history × IsLeftBy self.key result history }
    {
        let Half {
            table,
            mut seat,
            side: _,
        } = self;
        let Half {
            table: _,
            seat: theirs,
            side: _,
        } = receiving;
        table.shared.join_seat::<TwoSides>(&mut seat, theirs);
        let found = table
            .shared
            .compare_exchange::<SeizeLast>(&mut seat, WORD, 0, 1);
        if found != 0 {
            unreachable!()
        }
        match table.shared.exchange(&mut seat, 0, None) {
            None => unreachable!(),
            Some(end) => end,
        }
    }
}
