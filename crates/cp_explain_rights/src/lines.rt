//! The access graph as lines: the components, each with its classes under it, and then, for each
//! that has rights, to which others.

use crate::instances::{Instance, Instances};
use cp_model::tree::Sort;
use cp_output::page::Page;
use std::alloc::AllocError;

fn word_of(sort: Sort) -> &'static str {
    match sort {
        Sort::Process => "process ",
        Sort::Monitor => "monitor ",
        Sort::Class => "class ",
    }
}

fn component_line(page: &mut Page, instance: &Instance<'_>) {
    page.blanks(instance.level.saturating_mul(2));
    page.text(word_of(instance.sort));
    page.bytes(&instance.path);
    if let Some(of) = instance.of {
        page.bytes(b": ");
        page.bytes(of.name.as_bytes());
    }
    page.bytes(b"\n");
}

fn rights_line(
    page: &mut Page,
    instances: &Instances<'_>,
    instance: &Instance<'_>,
) -> Result<(), AllocError> {
    let rights = instances.rights_of(instance)?;
    if rights.is_empty() {
        return Ok(());
    }
    page.bytes(&instance.path);
    page.bytes(b" ->");
    let mut is_first = true;
    for to in rights {
        if let Some(to) = instances.get(to) {
            page.text(if is_first { " " } else { ", " });
            page.bytes(&to.path);
            is_first = false;
        }
    }
    page.bytes(b"\n");
    Ok(())
}

fn component_lines(page: &mut Page, instances: &Instances<'_>, order: &[usize]) {
    for index in order {
        if let Some(instance) = instances.get(*index) {
            component_line(page, instance);
        }
    }
}

fn rights_lines(
    page: &mut Page,
    instances: &Instances<'_>,
    order: &[usize],
) -> Result<(), AllocError> {
    for index in order {
        if let Some(instance) = instances.get(*index) {
            rights_line(page, instances, instance)?;
        }
    }
    Ok(())
}

/// Writes the lines of all components. Fails only if memory runs out.
pub(crate) fn write(page: &mut Page, instances: &Instances<'_>) -> Result<(), AllocError> {
    let order = instances.in_order()?;
    page.text("accepted\nprocess initial\n");
    component_lines(page, instances, &order);
    rights_lines(page, instances, &order)?;
    page.text(if instances.is_whole() {
        ""
    } else {
        "(there are more components and rights than are listed here)\n"
    });
    Ok(())
}
