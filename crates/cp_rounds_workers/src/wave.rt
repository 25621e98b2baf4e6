//! A wave, as the calling thread sees it.

ghost use Rattle.std.specs.Prelude.{◌≡◌, ◌<◌, ◌≤◌, ℕ, IfOk};
ghost use Rattle.std.specs.Arc.{arc_value};
ghost use Rattle.cp_board.specs.Models.{IsSeatOf};
ghost use Rattle.cp_board.specs.Views.{IsDone};

use crate::lease::{SeatLease, Sheet, Sheets};
use crate::mailboxes::Mailboxes;
use crate::work::{Work, draw_all};
use cp_board::{Board, FULL_ALLOWANCE, MAX_STRIPES, MAX_TICKETS, Seat};
use std::alloc::{AllocError, Global};
use std::marker::PhantomData;
use std::snapshot::Snapshot;
use std::sync::{Arc, OnceLock, OnceToken, Wait};

/// The board of a wave with the calling thread's seat, and a lease for each helper. Only making a
/// wave takes memory: nothing that is done with it afterwards does.
#[derive(Drop)]
pub struct Wave<'a, C: Sheets> {
    /// The number of the wave among those that share their threads.
    pub number: usize,
    /// The number of the wave's chunks.
    pub chunks: usize,
    board: Arc<Board, Global>,
    seat: Seat,
    leases: Vec<SeatLease<'a, C>>,
    sheet: OnceToken<'a, Sheet>,
    of: PhantomData<C>,
    ghost cell: { sheet.of ≡ C.sheet number },
    ghost board_is: { arc_value board ≡ sheet.value.value },
    ghost seat_of: { IsSeatOf sheet.value.value seat },
    ghost numbers: { sheet.value.value.shape.numbers ≡ chunks },
}

// Splits a seat into this many, or fewer if its allowance doesn't suffice: returns one of them, and
// adds the others to `leases`. The seats begin to draw from different stripes, as far as there are
// enough.
fn deal<'a, C: Sheets>(
    sheet: &OnceToken<'a, Sheet>,
    wave: usize,
    board: &Arc<Board, Global>,
    seat: Seat,
    seats: usize,
    leases: &mut Vec<SeatLease<'a, C>>,
) -> Result<Seat, AllocError>
    requires cell { sheet.now.of ≡ C.sheet wave }
    requires board { arc_value board.now ≡ sheet.now.value.value }
    requires seat { IsSeatOf sheet.now.value.value seat }
    ensures { IfOk result (IsSeatOf sheet.now.value.value) }
{
    if seats <= 1 {
        return Ok(seat);
    }
    let given = seats / 2;
    let kept = seats - given;
    match board.split(seat, kept) {
        Ok((mine, theirs)) => {
            let theirs = deal(sheet, wave, board, theirs, given, leases)?;
            let shared = Arc::try_clone(board)?;
            leases.push(SeatLease::new(sheet, wave, shared, theirs))?;
            deal(sheet, wave, board, mine, kept, leases)
        }
        Err(seat) => Ok(seat),
    }
}

// Joins the seat with all others of its board, which it waits for.
fn collect<'a, C: Sheets, R: Wait>(
    rt: &R,
    mailboxes: &Mailboxes<'a, C>,
    sheet: &OnceToken<'a, Sheet>,
    wave: usize,
    board: &Board,
    mine: Seat,
) -> Seat
    requires cell { sheet.now.of ≡ C.sheet wave }
    requires board { board.now ≡ sheet.now.value.value }
    requires mine { IsSeatOf board.now mine }
    requires done { IsDone mine.view }
    ensures of { IsSeatOf board.now result }
    ensures done { IsDone result.view }
    ensures whole { result.view.allowance ≡ FULL_ALLOWANCE }
{
    let mut seat = mine;
    let mut sweep = mailboxes.sweep();
    for _ in rt.forever() {
        if seat.allowance() == FULL_ALLOWANCE {
            return seat;
        }
        let lease = mailboxes.take_back(rt, wave, &mut sweep);
        if let Some(theirs) = lease.finish(sheet, wave) {
            seat = board.join(seat, theirs);
        }
    }
    unreachable!()
}

// The board, when no other thread holds it any more.
fn owned<R: Wait>(rt: &R, board: Arc<Board, Global>) -> Board
    ensures { result ≡ arc_value board }
{
    let mut shared = board;
    for _ in rt.forever() {
        match Arc::try_unwrap(shared) {
            Ok(board) => return board,
            Err(again) => shared = again,
        }
    }
    unreachable!()
}

// Publishes leases in the first places.
fn publish_all<'a, C: Sheets, R: Wait>(
    rt: &R,
    mailboxes: &Mailboxes<'a, C>,
    leases: &mut Vec<SeatLease<'a, C>>,
) {
    'publish: while let Some(lease) = leases.pop() {
        mailboxes.publish(rt, leases.len(), lease);
    }
}

impl<'a, C: Sheets> Wave<'a, C> {
    /// A wave of `chunks` chunks, for this many workers, of which the calling thread is
    /// one. The cell has to be empty: the sheet of the wave is written there.
    ///
    /// # Errors
    ///
    /// `AllocError` if memory runs out, or if the cell is written.
    pub fn new<R: Wait>(
        rt: &R,
        alloc: Global,
        cell: &'a OnceLock<Sheet>,
        number: usize,
        chunks: usize,
        workers: usize,
    ) -> Result<Wave<'a, C>, AllocError>
        requires cell { cell.now.id ≡ C.sheet number }
        requires chunks { chunks ≤ MAX_TICKETS }
        ensures number { IfOk result (λ wave. wave.number ≡ number) }
        ensures chunks { IfOk result (λ wave. wave.chunks ≡ chunks) }
    {
        let stripes = workers.min(chunks).min(MAX_STRIPES).max(1);
        let (board, seat) = Board::new(alloc, chunks, stripes)?;
        let Ok(sheet) = cell.set(rt, Snapshot::of(&board)) else {
            return Err(AllocError);
        };
        let Ok(board) = Arc::new(alloc, board) else {
            return Err(AllocError);
        };
        let mut leases = Vec::with_capacity(alloc, workers.saturating_sub(1))?;
        let seat = deal(&sheet, number, &board, seat, workers, &mut leases)?;
        Ok(Wave {
            number,
            chunks,
            board,
            seat,
            leases,
            sheet,
            of: PhantomData,
        })
    }

    /// Publishes the leases in the first places of the mailboxes, and wakes their threads.
    pub fn begin<R: Wait>(&mut self, rt: &R, mailboxes: &Mailboxes<'a, C>)
        ensures number { self.new.number ≡ self.old.number }
        ensures chunks { self.new.chunks ≡ self.old.chunks }
    {
        publish_all(rt, mailboxes, &mut self.leases);
    }

    /// Draws a chunk and works on it. Returns false if none is left.
    pub fn help<R: Wait, W: Work>(&mut self, rt: &R, work: &W) -> bool
        requires can { W.can work.now }
        ensures number { self.new.number ≡ self.old.number }
        ensures chunks { self.new.chunks ≡ self.old.chunks }
    {
        let Some(chunk) = self.board.claim(&mut self.seat) else {
            return false;
        };
        work.work(rt, self.number, chunk);
        true
    }

    /// Draws chunks and works on them until none is left, begins the next wave, and takes back all
    /// leases of this one. The board that it returns can be closed with the seat, which then says
    /// that each chunk was drawn, and drawn once.
    ///
    /// The next wave begins before this one's leases are back, so that no thread waits for another.
    /// The places hold the leases of two consecutive waves.
    pub fn finish<R: Wait, W: Work>(
        self,
        rt: &R,
        mailboxes: &Mailboxes<'a, C>,
        next: Option<&mut Wave<'a, C>>,
        work: &W,
    ) -> (Board, Seat)
        requires can { W.can work.now }
        ensures of { IsSeatOf result.0 result.1 }
        ensures board { result.0 ≡ arc_value self.entry.board }
        ensures chunks { result.0.shape.numbers ≡ self.entry.chunks }
        ensures done { IsDone result.1.view }
        ensures whole { result.1.view.allowance ≡ FULL_ALLOWANCE }
    {
        let Wave {
            number,
            board,
            mut seat,
            sheet,
            ..
        } = self;
        draw_all(rt, &board, &mut seat, number, work);
        if let Some(next) = next {
            next.begin(rt, mailboxes);
        }
        let seat = collect(rt, mailboxes, &sheet, number, &board, seat);
        (owned(rt, board), seat)
    }

    /// Calls the stop, and publishes the leases, so that each thread that takes one sees the stop and
    /// ends.
    pub fn stop<R: Wait>(self, rt: &R, mailboxes: &Mailboxes<'a, C>) {
        let Wave {
            board,
            mut seat,
            mut leases,
            ..
        } = self;
        board.stop(&mut seat);
        publish_all(rt, mailboxes, &mut leases);
    }
}
