//! How the threads of a worker pool start.

use crate::lease::Sheets;
use crate::mailboxes::Mailboxes;
use crate::work::Work;
use std::alloc::AllocError;
use std::sync::Wait;
use std::thread::{Scope, Threads};

/// Starts a thread for each place of the mailboxes. Each of them ends when it sees a stop.
///
/// # Errors
///
/// `AllocError` if a thread could not be started. Those before it were started.
pub fn start<'s, 'a, E, C: Sheets + Send + Sync, R: Threads + Wait + Sync, W: Work + Sync>(
    rt: &'s R,
    scope: &'s Scope<'s, E>,
    mailboxes: &'s Mailboxes<'a, C>,
    work: &'s W,
) -> Result<(), AllocError>
    requires can { W.can work.now }
{
    for place in 0..mailboxes.places() {
        let served = move ||
            requires { W.can work.now }
        { mailboxes.serve(rt, place, work) };
        if scope.spawn(served).is_err() {
            return Err(AllocError);
        }
    }
    Ok(())
}
