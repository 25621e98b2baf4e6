//! The access graph for Graphviz: a cluster for each process and each monitor that has classes, and
//! an arrow for each right.

use crate::instances::{Instance, Instances};
use cp_model::tree::Sort;
use cp_output::graphviz::{push_arrow, push_node};
use cp_output::page::Page;
use std::alloc::AllocError;

// How a component of this sort is drawn.
fn shape_of(sort: Sort) -> &'static str {
    match sort {
        Sort::Process => "shape=ellipse",
        Sort::Monitor => "shape=box",
        Sort::Class => "shape=box, style=dashed",
    }
}

fn node(page: &mut Page, instance: &Instance<'_>) {
    page.bytes(b"  ");
    push_node(page, &instance.path);
    page.bytes(b" [label=\"");
    page.bytes(instance.inner_path());
    if let Some(of) = instance.of {
        page.bytes(b"\\n");
        page.bytes(of.name.as_bytes());
    }
    page.bytes(b"\", ");
    page.text(shape_of(instance.sort));
    page.bytes(b"];\n");
}

fn cluster(page: &mut Page, instance: &Instance<'_>) {
    page.bytes(b"  subgraph \"cluster ");
    page.bytes(&instance.path);
    page.bytes(b"\" {\n  style=rounded;\n");
}

fn nodes(page: &mut Page, instances: &Instances<'_>, order: &[usize]) {
    let mut is_open = false;
    for index in order {
        if let Some(instance) = instances.get(*index) {
            if is_open && instance.level == 0 {
                page.bytes(b"  }\n");
                is_open = false;
            }
            if instance.level == 0 && instance.has_parts() {
                cluster(page, instance);
                is_open = true;
            }
            node(page, instance);
        }
    }
    page.text(if is_open { "  }\n" } else { "" });
}

fn arrows<'t>(
    page: &mut Page,
    instances: &Instances<'t>,
    from: &Instance<'t>,
) -> Result<(), AllocError> {
    let rights = instances.rights_of(from)?;
    for to in rights {
        if let Some(to) = instances.get(to) {
            push_arrow(page, &from.path, &to.path);
            page.bytes(b";\n");
        }
    }
    Ok(())
}

fn all_arrows(
    page: &mut Page,
    instances: &Instances<'_>,
    order: &[usize],
) -> Result<(), AllocError> {
    for index in order {
        if let Some(instance) = instances.get(*index) {
            arrows(page, instances, instance)?;
        }
    }
    Ok(())
}

/// Writes the graph of all components but the initial process. Fails only if memory runs out.
pub(crate) fn write(page: &mut Page, instances: &Instances<'_>) -> Result<(), AllocError> {
    let order = instances.in_order()?;
    page.text("digraph access {\n");
    nodes(page, instances, &order);
    all_arrows(page, instances, &order)?;
    page.text(if instances.is_whole() {
        "}\n"
    } else {
        "  // there are more components and rights than are drawn here\n}\n"
    });
    Ok(())
}
