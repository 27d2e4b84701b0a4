//! A replica that threads share.
ghost use Rattle.std.specs.Prelude.{◌≡◌, ℕ, ◌+◌, ◌<◌, ◌≤◌, true, [], IfOk, IfErr, IfSome, vec_len, slice_index_or};
ghost use Rattle.std.specs.Vec.{vec_capacity};
ghost use Rattle.commit_ledger.specs.Tallies.{no_tally, empty_portion};
ghost use Rattle.journal.specs.Writing.{is_number};
ghost use Rattle.replica_core.specs.declared.event.Event.TheVariants.{OpenChannel, Position, Receive, Take, Commit, Rollback, Restart, Local, Purge, Look};
ghost use Rattle.replica_core.specs.Machine.{is_numbered};
ghost use Rattle.shared_replica.specs.Passes.{fresh, Makes, MakesTaking};
ghost use Rattle.shared_replica.specs.Preparing.{MayPrepare};
ghost use Rattle.shared_replica.specs.Closing.{IsClosed};

use crate::book::Book;
use crate::closed::ClosedBook;
use crate::naming::{LedgersOf, Naming};
use crate::pass::Pass;
use crate::room::add;
use crate::step::Sheet;
use crate::taking::Taking;
use commit_ledger::{Blanks, Share, Total, open_shares};
use gtid_set::SetFault;
use journal::Entry;
use replica_core::{Core, Event, Reply};
use rows::{Footprint, Name, Patch, Transaction};
use std::alloc::{AllocError, Global};
use std::marker::Model;
use std::snapshot::Snapshot;
use std::sync::{Mutex, Wait};

/// A core that threads share under one lock. A contract sees the core that it was opened with and the
/// number of its seats. Each call makes one step, or waits for the lock forever; it puts the step's
/// line into the history and a receipt for it into the pass.
#[derive(Drop)]
pub struct SharedReplica<N: Naming> {
    opening: Snapshot<Core>,
    seats: u8,
    book: Mutex<Book<N>>,
    sheets: Vec<Sheet>,
}

impl<N: Naming> Model for SharedReplica<N> {
    ghost use Rattle.std.specs.Prelude.{◌≡◌, ◌≤◌, []};
    ghost use Rattle.std.specs.Vec.{vec_capacity};
    ghost use Rattle.std.specs.Coded.{codes};
    ghost use Rattle.gtid_set.specs.Sets.{gtids_code};
    ghost use Rattle.rows.specs.Coding.{rows_code};
    ghost use Rattle.replica_core.specs.Slots.{seats_code};
    ghost use Rattle.shared_replica.specs.Passes.{SharedValue};

    ghost Value = { SharedValue };

    ghost coded = { Prim.hlevel (codes, gtids_code, rows_code, seats_code) };

    ghost view = { λ s. record { opening = N.opening; seats = s.seats } };

    ghost invariant = { λ s. (s.opening.value ≡ N.opening) × (s.seats ≡ N.seats) × (1 ≤ s.seats) × (s.seats ≤ 64) × (s.sheets.items ≡ []) × (s.seats ≤ vec_capacity s.sheets) };
}

impl<N: Naming> SharedReplica<N> {
    /// Shares a core among the seats 1 to `seats`, each with a pass of its own. After an error, which
    /// is a failed allocation, the core is handed back.
    pub fn open(
        alloc: Global,
        blanks: Blanks,
        core: Core,
        seats: u8,
    ) -> Result<(SharedReplica<N>, Vec<Pass<N>>), (Core, AllocError)>
        requires steps { (blanks.steps.name ≡ N.steps_name) × (blanks.steps.parts ≡ N.seats) }
        requires commits { (blanks.commits.name ≡ N.commits_name) × (blanks.commits.parts ≡ N.seats) }
        requires opening { core ≡ N.opening }
        requires seats { (seats ≡ N.seats) × (1 ≤ seats) × (seats ≤ 64) }
        ensures shared { IfOk result (λ r. r.0 ≡ record { opening = core; seats = seats }) }
        ensures count { IfOk result (λ r. vec_len r.1 ≡ seats) }
        ensures passes { IfOk result (λ r. (i : ℕ) (d : _) → i < seats → slice_index_or r.1.items i d ≡ fresh (i + 1)) }
        ensures err { IfErr result (λ e. e.0 ≡ core) }
    {
        match prepare::<N>(alloc, blanks, seats) {
            Ok(ready) => {
                let OpenParts {
                    sheets,
                    total,
                    passes,
                } = ready;
                let opening = Snapshot::of(&core);
                let book = Mutex::new(Book::new(alloc, core, total));
                let shared = SharedReplica {
                    opening,
                    seats,
                    book,
                    sheets,
                };
                Ok((shared, passes))
            }
            Err(error) => Err((core, error)),
        }
    }

    /// Ends the sharing. It is refused if there are fewer passes than seats, or if the receipts are not the steps: each step with the line
    /// at its place, the places of a pass ascending, no place twice, and none without a receipt. All is then handed back. It waits for
    /// nothing and does not allocate.
    pub fn close(self, passes: Vec<Pass<N>>) -> Result<ClosedBook, (SharedReplica<N>, Vec<Pass<N>>)>
        ensures ok { IfOk result (λ b. IsClosed self passes.items b) }
        ensures err { IfErr result (λ r. (r.0 ≡ self) × (r.1.items ≡ passes.items)) }
    {
        let SharedReplica {
            opening,
            seats,
            book,
            sheets,
        } = self;
        let book = book.into_inner();
        if passes.len() != seats as usize || !book.is_of(passes.as_slice()) {
            let shared = SharedReplica {
                opening,
                seats,
                book: Mutex::new(book),
                sheets,
            };
            return Err((shared, passes));
        }
        Ok(book.close(opening, sheets, passes))
    }

    /// The least place of a channel from this number on that a seat might take. It is a hint: other
    /// threads may be quicker, and a Take decides. It leaves no line and no receipt.
    pub fn next_ready<R: Wait>(&self, rt: &R, channel: usize, from: usize) -> Option<usize> {
        self.book.lock(rt).next_ready(channel, from)
    }

    /// The least places of a channel from this number on that a seat might take, as many as `places` has
    /// room for, and how many they are. They are hints, as `next_ready` gives them.
    pub fn ready_places<R: Wait>(
        &self,
        rt: &R,
        channel: usize,
        from: usize,
        places: &mut [usize],
    ) -> usize {
        self.book.lock(rt).ready_places(channel, from, places)
    }

    /// Whether the pass's seat holds a transaction.
    pub fn holds<R: Wait>(&self, rt: &R, pass: &Pass<N>) -> bool {
        self.book.lock(rt).holds(pass.seat())
    }

    /// What a worker needs to prepare the transaction that the pass's seat holds, without the lock: the transaction, which the schema
    /// takes, and all keys that it touches with the rows that carried them at that moment. None if the seat holds nothing. It leaves no
    /// line and no receipt.
    pub fn footprint<R: Wait>(
        &self,
        rt: &R,
        alloc: Global,
        pass: &Pass<N>,
    ) -> Result<Option<(Transaction, Footprint)>, AllocError>
        ensures { IfOk result (λ r. IfSome r (λ p. MayPrepare self.now.opening.site.schema p.0 p.1)) }
    {
        self.book.lock(rt).footprint(alloc, pass.seat())
    }
}

/// The ten events. Each call returns the reply that the core gave under the lock. The pass then has one step more in its share, one commit
/// more if the reply is Committed, and a receipt of the event, with the pass's seat if the event has one, and of that reply. After an error
/// neither the pass nor the history has changed: out of memory, or the set that the event makes would have too many sources or intervals.
impl<N: Naming> SharedReplica<N> {
    /// Opens a channel of this name, which preserves the order of its places or not.
    pub fn open_channel<R: Wait>(
        &self,
        rt: &R,
        alloc: Global,
        pass: &mut Pass<N>,
        name: Name,
        preserve: bool,
    ) -> Result<Reply, SetFault>
        ensures { Makes (OpenChannel name preserve) pass.old result pass.new }
    {
        self.make(rt, alloc, Event::OpenChannel(name, preserve), None, pass)
    }

    /// Asks for the set with which a channel goes to its source. ("GTID Auto-Positioning")
    pub fn position<R: Wait>(
        &self,
        rt: &R,
        alloc: Global,
        pass: &mut Pass<N>,
        channel: usize,
    ) -> Result<Reply, SetFault>
        ensures { Makes (Position channel) pass.old result pass.new }
    {
        self.make(rt, alloc, Event::Position(channel), None, pass)
    }

    /// A channel receives an entry. Its number is 1 to 9223372036854775807.
    pub fn receive<R: Wait>(
        &self,
        rt: &R,
        alloc: Global,
        pass: &mut Pass<N>,
        channel: usize,
        entry: Entry,
    ) -> Result<Reply, SetFault>
        requires { is_number entry.gtid.number ≡ true }
        ensures { Makes (Receive channel entry) pass.old result pass.new }
    {
        self.make(rt, alloc, Event::Receive(channel, entry), None, pass)
    }

    /// The seat takes the transaction at a place of a channel.
    pub fn take<R: Wait>(
        &self,
        rt: &R,
        alloc: Global,
        pass: &mut Pass<N>,
        channel: usize,
        place: usize,
    ) -> Result<Reply, SetFault>
        ensures { Makes (Take pass.old.seat channel place) pass.old result pass.new }
    {
        self.make(
            rt,
            alloc,
            Event::Take(pass.seat(), channel, place),
            None,
            pass,
        )
    }

    /// The seat takes the transaction at a place of a channel, and is given what it needs to prepare a transaction of at least `least`
    /// changes. If there is no memory for that, the take is made, and nothing is given.
    pub fn take_to_prepare<R: Wait>(
        &self,
        rt: &R,
        alloc: Global,
        pass: &mut Pass<N>,
        channel: usize,
        place: usize,
        least: usize,
    ) -> Result<Taking, SetFault>
        ensures makes { MakesTaking channel place pass.old result pass.new }
        ensures seen { IfOk result (λ taking. IfSome taking.footprint (λ p. MayPrepare self.now.opening.site.schema p.0 p.1)) }
    {
        self.book.lock(rt).take(alloc, channel, place, least, pass)
    }

    /// The seat commits what it took.
    pub fn commit<R: Wait>(
        &self,
        rt: &R,
        alloc: Global,
        pass: &mut Pass<N>,
    ) -> Result<Reply, SetFault>
        ensures { Makes (Commit pass.old.seat) pass.old result pass.new }
    {
        self.make(rt, alloc, Event::Commit(pass.seat()), None, pass)
    }

    /// The seat commits what it took, by a patch that was prepared without the lock. The patch is used up
    /// whatever the reply. One that is of another transaction, or no longer valid, is ignored.
    pub fn commit_prepared<R: Wait>(
        &self,
        rt: &R,
        alloc: Global,
        pass: &mut Pass<N>,
        patch: Patch,
    ) -> Result<Reply, SetFault>
        ensures { Makes (Commit pass.old.seat) pass.old result pass.new }
    {
        self.make(rt, alloc, Event::Commit(pass.seat()), Some(patch), pass)
    }

    /// The seat rolls back what it took.
    pub fn rollback<R: Wait>(
        &self,
        rt: &R,
        alloc: Global,
        pass: &mut Pass<N>,
    ) -> Result<Reply, SetFault>
        ensures { Makes (Rollback pass.old.seat) pass.old result pass.new }
    {
        self.make(rt, alloc, Event::Rollback(pass.seat()), None, pass)
    }

    /// A stopped channel runs again.
    pub fn restart<R: Wait>(
        &self,
        rt: &R,
        alloc: Global,
        pass: &mut Pass<N>,
        channel: usize,
    ) -> Result<Reply, SetFault>
        ensures { Makes (Restart channel) pass.old result pass.new }
    {
        self.make(rt, alloc, Event::Restart(channel), None, pass)
    }

    /// A transaction of the server's own.
    pub fn local<R: Wait>(
        &self,
        rt: &R,
        alloc: Global,
        pass: &mut Pass<N>,
        changes: Transaction,
    ) -> Result<Reply, SetFault>
        ensures { Makes (Local changes) pass.old result pass.new }
    {
        self.make(rt, alloc, Event::Local(changes), None, pass)
    }

    /// This many of the own journal's first entries are purged.
    pub fn purge<R: Wait>(
        &self,
        rt: &R,
        alloc: Global,
        pass: &mut Pass<N>,
        count: usize,
    ) -> Result<Reply, SetFault>
        ensures { Makes (Purge count) pass.old result pass.new }
    {
        self.make(rt, alloc, Event::Purge(count), None, pass)
    }

    /// Asks for the executed set.
    pub fn look<R: Wait>(
        &self,
        rt: &R,
        alloc: Global,
        pass: &mut Pass<N>,
    ) -> Result<Reply, SetFault>
        ensures { Makes Look pass.old result pass.new }
    {
        self.make(rt, alloc, Event::Look, None, pass)
    }
}

impl<N: Naming> SharedReplica<N> {
    /// One event under the lock. A Commit uses a patch, if there is one.
    fn make<R: Wait>(
        &self,
        rt: &R,
        alloc: Global,
        event: Event,
        patch: Option<Patch>,
        pass: &mut Pass<N>,
    ) -> Result<Reply, SetFault>
        requires { is_numbered event ≡ true }
        ensures { Makes event pass.old result pass.new }
    {
        self.book.lock(rt).make(alloc, &event, patch, pass)
    }
}

/// What `open` makes before it takes the core.
struct OpenParts<N: Naming> {
    sheets: Vec<Sheet>,
    total: Total<LedgersOf<N>>,
    passes: Vec<Pass<N>>,
}

fn prepare<N: Naming>(alloc: Global, blanks: Blanks, seats: u8) -> Result<OpenParts<N>, AllocError>
    requires steps { (blanks.steps.name ≡ N.steps_name) × (blanks.steps.parts ≡ N.seats) }
    requires commits { (blanks.commits.name ≡ N.commits_name) × (blanks.commits.parts ≡ N.seats) }
    requires seats { (seats ≡ N.seats) × (1 ≤ seats) × (seats ≤ 64) }
    ensures sheets { IfOk result (λ r. (r.sheets.items ≡ []) × (seats ≤ vec_capacity r.sheets)) }
    ensures total { IfOk result (λ r. r.total ≡ no_tally) }
    ensures count { IfOk result (λ r. vec_len r.passes ≡ seats) }
    ensures passes { IfOk result (λ r. (i : ℕ) (d : _) → i < seats → slice_index_or r.passes.items i d ≡ fresh (i + 1)) }
{
    let sheets = Vec::with_capacity(alloc, seats as usize)?;
    let (total, shares) = open_shares::<LedgersOf<N>>(alloc, blanks, seats as u64)?;
    let passes = passes_of(alloc, shares)?;
    Ok(OpenParts {
        sheets,
        total,
        passes,
    })
}

/// A pass for each share, the seats ascending from 1.
fn passes_of<N: Naming>(
    alloc: Global,
    shares: Vec<Share<LedgersOf<N>>>,
) -> Result<Vec<Pass<N>>, AllocError>
    requires few { vec_len shares ≤ 64 }
    requires fresh { (i : ℕ) (d : _) → i < vec_len shares → slice_index_or shares.items i d ≡ empty_portion 1 }
    ensures count { IfOk result (λ v. vec_len v ≡ vec_len shares) }
    ensures passes { IfOk result (λ v. (i : ℕ) (d : _) → i < vec_len shares → slice_index_or v.items i d ≡ fresh (i + 1)) }
{
    let mut passes = Vec::with_capacity(alloc, shares.len())?;
    for share in shares {
        let seat = passes.len() as u8 + 1;
        add(&mut passes, Pass::new(alloc, seat, share));
    }
    Ok(passes)
}
