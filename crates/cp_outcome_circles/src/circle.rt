//! A circle of processes that wait for each other.
//!
//! A process waits for whoever could let it continue: the holder of the gate for which it asks, or
//! the processes that could still continue its queue. If one of them can move, or waits for one that
//! can, it isn't blocked. A circle has only blocked processes.

ghost use Rattle.std.specs.Prelude.{◌<◌, IfSome, length};

use std::alloc::{AllocError, Global};

/// Whether a process waits, and for whom.
#[derive(Drop)]
pub enum Wait {
    /// It can move, now or later.
    Moves,
    /// It never moves again, whatever others do.
    Over,
    /// It waits in a monitor for one of these processes, by their numbers.
    For { monitor: u32, others: Vec<u32> },
}

/// A part of a circle: a process that waits in a monitor for the process of the next part, or for
/// that of the first part after the last.
#[derive(Clone, Copy)]
pub struct Link {
    /// From 1.
    pub process: u32,
    /// From 1, or 0 for a process that waits in no monitor, since it is still to be started.
    pub monitor: u32,
}

// The index of the process with this number, if there is one.
fn index_of(number: u32, count: usize) -> Option<usize>
    ensures { IfSome result (λ i. i < count) }
{
    let index = (number as usize).checked_sub(1)?;
    if index < count { Some(index) } else { None }
}

// Who waits, and for whom.
#[derive(Drop)]
struct Waits<'a> {
    alloc: Global,
    all: &'a [Wait],
    /// For each process, those that wait for it.
    waiters: Vec<Vec<usize>>,
}

// Adds a waiter to each of these processes.
fn add_waiter(
    waiters: &mut Vec<Vec<usize>>,
    others: &[u32],
    waiter: usize,
) -> Result<(), AllocError> {
    for other in others {
        if let Some(index) = index_of(*other, waiters.len()) {
            waiters[index].push(waiter)?;
        }
    }
    Ok(())
}

fn waiters_of(alloc: Global, all: &[Wait]) -> Result<Vec<Vec<usize>>, AllocError> {
    let mut waiters = Vec::new(alloc);
    for _process in all {
        waiters.push(Vec::new(alloc))?;
    }
    for (index, wait) in all.iter().enumerate() {
        if let Wait::For { others, .. } = wait {
            add_waiter(&mut waiters, others, index)?;
        }
    }
    Ok(waiters)
}

// Whether there is a mark at an index.
fn has_mark(marks: &[bool], index: usize) -> bool {
    matches!(marks.get(index), Some(true))
}

// Takes away the mark at an index.
fn clear(marks: &mut Vec<bool>, index: usize) {
    if let Some(mark) = marks.get_mut(index) {
        *mark = false;
    }
}

// How many of these processes have a mark.
fn count_marked(marks: &[bool], others: &[u32]) -> usize {
    let mut count: usize = 0;
    for other in others {
        if let Some(index) = index_of(*other, marks.len()) {
            if marks[index] {
                count = count.saturating_add(1);
            }
        }
    }
    count
}

impl Waits<'_> {
    // The processes that wait for one.
    fn waiters(&self, index: usize) -> &[usize] {
        match self.waiters.get(index) {
            Some(waiters) => waiters,
            None => &[],
        }
    }

    // By index, whether a process waits and no one that it waits for can let it continue.
    fn blocked(&self) -> Result<Vec<bool>, AllocError> {
        let mut marks = Vec::new(self.alloc);
        let mut left = Vec::new(self.alloc);
        for (index, wait) in self.all.iter().enumerate() {
            marks.push(matches!(wait, Wait::For { .. }))?;
            if let Wait::Moves = wait {
                left.push(index)?;
            }
        }
        for _process in self.all {
            let Some(index) = left.pop() else {
                break;
            };
            self.free_waiters(index, &mut marks, &mut left)?;
        }
        Ok(marks)
    }

    // Takes the mark from those that wait for a process that can move.
    fn free_waiters(
        &self,
        index: usize,
        marks: &mut Vec<bool>,
        left: &mut Vec<usize>,
    ) -> Result<(), AllocError> {
        for waiter in self.waiters(index) {
            if let Some(mark) = marks.get_mut(*waiter) {
                if *mark {
                    *mark = false;
                    left.push(*waiter)?;
                }
            }
        }
        Ok(())
    }

    // The processes that one waits for.
    fn others(&self, index: usize) -> &[u32] {
        match self.all.get(index) {
            Some(Wait::For { others, .. }) => others,
            _ => &[],
        }
    }

    // Takes the mark from those of these processes that wait for none with a mark. Returns them.
    fn trim(&self, candidates: &[usize], marks: &mut Vec<bool>) -> Result<Vec<usize>, AllocError> {
        let mut trimmed = Vec::new(self.alloc);
        for index in candidates {
            if has_mark(marks, *index) && count_marked(marks, self.others(*index)) == 0 {
                clear(marks, *index);
                trimmed.push(*index)?;
            }
        }
        Ok(trimmed)
    }

    // Takes the mark from all that lead to no circle.
    fn trim_all(&self, marks: &mut Vec<bool>) -> Result<(), AllocError> {
        let mut all = Vec::new(self.alloc);
        for index in 0..marks.len() {
            all.push(index)?;
        }
        let mut left = self.trim(&all, marks)?;
        for _process in self.all {
            let Some(index) = left.pop() else {
                break;
            };
            for trimmed in &self.trim(self.waiters(index), marks)? {
                left.push(*trimmed)?;
            }
        }
        Ok(())
    }

    // The first process with a mark that one waits for.
    fn next(&self, index: usize, marks: &[bool]) -> Option<usize> {
        for other in self.others(index) {
            let next = index_of(*other, marks.len())?;
            if marks[next] {
                return Some(next);
            }
        }
        None
    }

    // From a process on, each waits for the next, until one is there already. Returns them and the
    // index of that one among them.
    fn path(&self, first: usize, marks: &[bool]) -> Result<(Vec<usize>, usize), AllocError> {
        let mut path = Vec::new(self.alloc);
        let mut places = vec![in self.alloc; None; marks.len()]?;
        let mut at = first;
        for place in 0..marks.len() {
            if let Some(Some(again)) = places.get(at).copied() {
                return Ok((path, again));
            }
            if let Some(known) = places.get_mut(at) {
                *known = Some(place);
            }
            path.push(at)?;
            match self.next(at, marks) {
                Some(next) => at = next,
                None => break,
            }
        }
        let again = match places.get(at).copied() {
            Some(Some(again)) => again,
            _ => path.len(),
        };
        Ok((path, again))
    }

    // The part of a circle that a process is.
    fn link(&self, index: usize) -> Link {
        let monitor = match self.all.get(index) {
            Some(Wait::For { monitor, .. }) => *monitor,
            _ => 0,
        };
        Link {
            process: u32::try_from(index.saturating_add(1)).unwrap_or(0),
            monitor,
        }
    }
}

// The index of the least number of a list, or 0.
fn least(list: &[usize]) -> usize {
    let mut index = 0;
    for (i, number) in list.iter().enumerate() {
        match list.get(index) {
            Some(known) if number < known => index = i,
            _ => {}
        }
    }
    index
}

/// A circle of these processes, from its least number on, or no links if there is none. Of several
/// circles it is the one to which the least number leads.
///
/// # Errors
///
/// `AllocError` if memory runs out.
pub fn circle(alloc: Global, all: &[Wait]) -> Result<Vec<Link>, AllocError> {
    let waits = Waits {
        alloc,
        all,
        waiters: waiters_of(alloc, all)?,
    };
    let mut links = Vec::new(alloc);
    let mut marks = waits.blocked()?;
    waits.trim_all(&mut marks)?;
    let Some(first) = marks.iter().position(|mark| *mark) else {
        return Ok(links);
    };
    let (path, again) = waits.path(first, &marks)?;
    let members = path.get(again..).unwrap_or(&[]);
    let start = least(members);
    for index in members.iter().skip(start).chain(members.iter().take(start)) {
        links.push(waits.link(*index))?;
    }
    Ok(links)
}
