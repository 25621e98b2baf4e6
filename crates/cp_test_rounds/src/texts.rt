//! Compiled texts.

use cp_check::checking::{CompiledText, check};
use cp_model::tree::Tree;
use cp_scan::scan;
use cp_syntax::parse;
use std::alloc::Global;
use std::test::Fail;

/// The syntax tree of a text.
pub(crate) fn tree_of(alloc: Global, text: &str) -> Result<Tree, Fail> {
    let Ok(tokens) = scan(alloc, text.as_bytes()) else {
        return Err("the text has no tokens".into());
    };
    let Ok(tree) = parse(alloc, tokens.as_slice(), text.len()) else {
        return Err("the text has no tree".into());
    };
    Ok(tree)
}

/// The program and the tables of an accepted text.
pub(crate) fn compiled<'t>(alloc: Global, tree: &'t Tree) -> Result<CompiledText<'t>, Fail> {
    let Ok(compiled) = check(alloc, tree) else {
        return Err("the text is refused".into());
    };
    Ok(compiled)
}
