//! The line of a state that came again.

use crate::helpers::separator;
use crate::names::Subject;
use cp_output::page::Page;

/// A state that came again, and which processes moved between.
#[derive(Drop)]
pub struct Loop {
    /// After how many rounds it was seen first.
    pub first: u64,
    /// After how many rounds it came again.
    pub again: u64,
    /// The numbers of the processes that moved.
    pub moves: Vec<u32>,
    /// The numbers of the other processes that haven't ended.
    pub stays: Vec<u32>,
}

impl Subject<'_, '_> {
    // Adds the names of processes, and what they do in words for one or several of them.
    fn push_who(
        &self,
        page: &mut Page,
        processes: &[u32],
        one: &'static str,
        several: &'static str,
    ) {
        for (index, number) in processes.iter().enumerate() {
            page.text(separator(index, processes.len()));
            page.bytes(self.component_table.process_name(*number));
        }
        page.text(if processes.len() == 1 { one } else { several });
    }

    /// Adds the line of a state that came again.
    pub(crate) fn push_loop(&self, page: &mut Page, found: &Loop) {
        page.text("loop: the state after round ");
        page.number(found.first as usize);
        page.text(" came again after round ");
        page.number(found.again as usize);
        if !found.moves.is_empty() {
            page.text("; ");
            self.push_who(page, &found.moves, " moves", " move");
        }
        if !found.stays.is_empty() {
            page.text("; ");
            self.push_who(page, &found.stays, " never does", " never do");
        }
        page.text("\n");
    }
}
