//! A worker pool of threads that are kept from wave to wave, and draw the chunks of each wave from
//! its board.
//!
//! The calling thread makes a `Wave` with a board of the wave's chunks and a lease for each helper.
//! `Wave::begin` publishes the leases in the places of a `Mailboxes`. A thread that wakes takes the
//! lease out of its place, draws until no chunk is left or it sees a stop, and puts the lease back.
//! The calling thread draws too, in `Wave::finish`. Then it takes back all leases, including those
//! that no thread took. So a thread that sleeps delays no wave, and the calling thread has the
//! whole board again.
//!
//! Everything that can fail is done before a wave begins: `Wave::new`, `Mailboxes::new` and `start`
//! are the only calls that take memory or start a thread. A last wave without chunks ends the
//! worker pool: `Wave::stop` calls the stop of its board and publishes its leases.
//!
//! - `work`: what is done at a chunk, and how a seat draws.
//! - `lease`: a seat on its way between threads.
//! - `event_count`: how a thread waits for others.
//! - `mailboxes`: the places of the leases, and the loop of a thread.
//! - `wave`: a wave, as the calling thread sees it.
//! - `starting`: how the threads start.
#![tactic(auto)]

mod event_count;
mod lease;
mod mailboxes;
mod starting;
mod wave;
mod work;

pub use event_count::EventCount;
pub use lease::{SeatLease, Sheet, Sheets};
pub use mailboxes::Mailboxes;
pub use starting::start;
pub use wave::Wave;
pub use work::Work;
