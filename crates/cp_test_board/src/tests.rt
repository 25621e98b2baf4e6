//! What no clause says: how the numbers are spread over stripes, that seats on many threads draw
//! them all, and that a seat sees a stop that another seat called.
ghost use Rattle.std.specs.Prelude.{◌≡◌, ◌<◌, ◌≤◌};
ghost use Rattle.std.specs.Thread.{IsSync};
ghost use Rattle.cp_board.specs.Models.{IsSeatOf};

use cp_board::{Board, MAX_STRIPES, MAX_TICKETS, Seat};
use std::alloc::{AllocError, Global};
use std::sync::atomic::{AtomicU64, Ordering};
use std::test::Fail;
use std::thread;
use std::thread::{Threads, join};

// Draws until no number is left for the seat.
fn draw_all(alloc: Global, board: &Board, mut seat: Seat) -> (Seat, Result<Vec<usize>, AllocError>)
    requires { IsSeatOf board.now seat }
    ensures of { IsSeatOf board.now result.0 }
    ensures allowance { result.0.view.allowance ≡ seat.view.allowance }
{
    let mut drawn = Vec::new(alloc);
    'draw: while let Some(number) = board.claim(&mut seat) {
        if drawn.push(number).is_err() {
            return (seat, Err(AllocError));
        }
    }
    (seat, Ok(drawn))
}

// Whether `drawn` has each number below `n` exactly once.
fn is_each_once(alloc: Global, mut drawn: Vec<usize>, n: usize) -> Result<bool, AllocError> {
    drawn.sort()?;
    let want: Vec<usize> = (0..n).collect(alloc)?;
    Ok(drawn.as_slice() == want.as_slice())
}

// Whether one seat draws each number once and then gets `None` again, and the board counts the
// draws when it is closed.
fn draws_alone(alloc: Global, n: usize, stripes: usize) -> Result<bool, AllocError>
    requires numbers { n ≤ MAX_TICKETS }
    requires some { 0 < stripes }
    requires most { stripes ≤ MAX_STRIPES }
{
    let (board, seat) = Board::new(alloc, n, stripes)?;
    let (mut seat, drawn) = draw_all(alloc, &board, seat);
    let again = board.claim(&mut seat);
    let count = board.close(seat);
    Ok(is_each_once(alloc, drawn?, n)? && again.is_none() && count == n)
}

#[test]
fn one_seat_draws_each_number_once(rt: HostRuntime) -> Result<(), Fail> {
    assert!(rt; draws_alone(rt.alloc(), 5, 1)?);
    assert!(rt; draws_alone(rt.alloc(), 0, 64)?);
    assert!(rt; draws_alone(rt.alloc(), 2, 64)?);
    assert!(rt; draws_alone(rt.alloc(), 255, 64)?);
    Ok(())
}

#[test]
fn a_seat_draws_its_own_stripe_first(rt: HostRuntime) -> Result<(), Fail> {
    let (board, seat) = Board::new(rt.alloc(), 5, 3)?;
    let (mut seat, drawn) = draw_all(rt.alloc(), &board, seat);
    let again = board.claim(&mut seat);
    let count = board.close(seat);
    assert_eq!(rt; drawn?.as_slice(), [0, 3, 1, 4, 2].as_slice());
    assert!(rt; again.is_none());
    assert_eq!(rt; count, 5);
    Ok(())
}

#[test]
fn two_threads_draw_each_number_once(rt: HostRuntime) -> Result<(), Fail> {
    let alloc = rt.alloc();
    let (board, seat) = Board::new(alloc, 255, 7)?;
    let Ok((first, second)) = board.split(seat, 1) else {
        panic!(rt; "a new seat can be split")
    };
    let ((first, some), (second, others)) = join(
        &rt,
        || draw_all(alloc, &board, first),
        || draw_all(alloc, &board, second),
    );
    let seat = board.join(first, second);
    let count = board.close(seat);
    let mut drawn = some?;
    drawn.append(&mut others?)?;
    assert!(rt; is_each_once(alloc, drawn, 255)?);
    assert_eq!(rt; count, 255);
    Ok(())
}

// A barrier at which threads wait for one another, so that they draw at the same time.
#[derive(Drop)]
struct Gate {
    arrived: AtomicU64,
    // How many threads have seen that all have arrived.
    together: AtomicU64,
}

impl Gate {
    // Waits for `all` threads, but not forever.
    fn arrive(&self, all: u64) {
        self.arrived.fetch_add(1, Ordering::SeqCst);
        for _ in 0..10_000_000 {
            if self.arrived.load(Ordering::SeqCst) == all {
                self.together.fetch_add(1, Ordering::SeqCst);
                return;
            }
            thread::yield_now();
        }
    }
}

// Splits the seat as far as possible, and has each part draw on a thread of its own.
fn draw_apart<R: Threads + Sync>(
    rt: &R,
    alloc: Global,
    board: &Board,
    seat: Seat,
    gate: &Gate,
) -> (Seat, Result<Vec<usize>, AllocError>)
    requires { IsSeatOf board.now seat }
    ensures of { IsSeatOf board.now result.0 }
    ensures allowance { result.0.view.allowance ≡ seat.view.allowance }
{
    let (first, second) = match board.split(seat, 1) {
        Ok(halves) => halves,
        Err(seat) => {
            gate.arrive(64);
            return draw_all(alloc, board, seat);
        }
    };
    let there = || -> (Seat, Result<Vec<usize>, AllocError>)
        requires { IsSync R.row × IsSeatOf board.now first }
        ensures of { IsSeatOf board.entry.now result.0 }
        ensures allowance { result.0.view.allowance ≡ first.view.allowance }
    { draw_apart(rt, alloc, board, first, gate) };
    let here = || -> (Seat, Result<Vec<usize>, AllocError>)
        requires { IsSync R.row × IsSeatOf board.now second }
        ensures of { IsSeatOf board.entry.now result.0 }
        ensures allowance { result.0.view.allowance ≡ second.view.allowance }
    { draw_apart(rt, alloc, board, second, gate) };
    let ((first, some), (second, others)) = join(rt, there, here);
    (board.join(first, second), both(some, others))
}

// The elements of both lists.
fn both(
    some: Result<Vec<usize>, AllocError>,
    others: Result<Vec<usize>, AllocError>,
) -> Result<Vec<usize>, AllocError> {
    let mut all = some?;
    all.append(&mut others?)?;
    Ok(all)
}

#[test]
fn sixty_four_threads_draw_each_number_once(rt: HostRuntime) -> Result<(), Fail> {
    let alloc = rt.alloc();
    for stripes in [1, 7, 64] {
        let (board, seat) = Board::new(alloc, 255, stripes)?;
        let gate = Gate {
            arrived: AtomicU64::new(0),
            together: AtomicU64::new(0),
        };
        let (seat, drawn) = draw_apart(&rt, alloc, &board, seat, &gate);
        let count = board.close(seat);
        assert!(rt; is_each_once(alloc, drawn?, 255)?, "{stripes} stripes");
        assert_eq!(rt; count, 255);
        assert_eq!(rt; gate.arrived.load(Ordering::SeqCst), 64, "seats");
        assert_eq!(rt; gate.together.load(Ordering::SeqCst), 64, "seats at once");
    }
    Ok(())
}

#[test]
fn a_stop_is_seen_on_the_same_thread(rt: HostRuntime) -> Result<(), Fail> {
    let (board, seat) = Board::new(rt.alloc(), 5, 3)?;
    let Ok((mut first, mut second)) = board.split(seat, 1) else {
        panic!(rt; "a new seat can be split")
    };
    let before = board.stopped(&mut second);
    board.stop(&mut first);
    let after = board.stopped(&mut second);
    let seat = board.join(first, second);
    let count = board.close(seat);
    assert!(rt; !before && after);
    assert_eq!(rt; count, 0);
    Ok(())
}

// Calls the stop and returns the seat.
fn stop_with(board: &Board, mut seat: Seat) -> Seat
    requires { IsSeatOf board.now seat }
    ensures of { IsSeatOf board.now result }
    ensures allowance { result.view.allowance ≡ seat.view.allowance }
{
    board.stop(&mut seat);
    seat
}

// Checks for the stop and returns the seat.
fn ask_with(board: &Board, mut seat: Seat) -> (Seat, bool)
    requires { IsSeatOf board.now seat }
    ensures of { IsSeatOf board.now result.0 }
    ensures allowance { result.0.view.allowance ≡ seat.view.allowance }
{
    let stopped = board.stopped(&mut seat);
    (seat, stopped)
}

#[test]
fn a_stop_from_another_thread_is_seen(rt: HostRuntime) -> Result<(), Fail> {
    let (board, seat) = Board::new(rt.alloc(), 5, 3)?;
    let Ok((first, second)) = board.split(seat, 1) else {
        panic!(rt; "a new seat can be split")
    };
    let (first, ()) = join(&rt, || stop_with(&board, first), || ());
    let (second, seen) = ask_with(&board, second);
    let seat = board.join(first, second);
    let count = board.close(seat);
    assert!(rt; seen);
    assert_eq!(rt; count, 0);
    Ok(())
}

#[test]
fn a_stop_is_seen_on_another_thread(rt: HostRuntime) -> Result<(), Fail> {
    let (board, seat) = Board::new(rt.alloc(), 5, 3)?;
    let Ok((first, second)) = board.split(seat, 1) else {
        panic!(rt; "a new seat can be split")
    };
    let first = stop_with(&board, first);
    let ((second, seen), ()) = join(&rt, || ask_with(&board, second), || ());
    let seat = board.join(first, second);
    let count = board.close(seat);
    assert!(rt; seen);
    assert_eq!(rt; count, 0);
    Ok(())
}
