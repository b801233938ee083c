//! Derivation trees in the language of Graphviz.

use crate::mark::{Mark, mark_of, push_place, push_status};
use crate::tree::Row;
use l4trace_texts::push_rights;
use mapdb::Mapping;
use std::alloc::AllocError;
use std::fmt::Write;

/// Appends a graph with a node for each row, at most so many, and an edge to each from its origin. New mappings are green,
/// changed ones orange.
pub fn push_dot(
    text: &mut String,
    rows: &[Row],
    before: &[Mapping],
    most: u64,
) -> Result<(), AllocError> {
    text.push_str("digraph holdings {\n  node [shape=box, fontname=monospace];\n")?;
    for (i, row) in rows.iter().enumerate() {
        if i as u64 >= most {
            write!(text, "  more [label=\".. and {} more\"];\n", rows.len() - i)?;
            break;
        }
        push_node(text, row, mark_of(&row.mapping, before))?;
    }
    text.push_str("}\n")
}

/// Appends the node of a row, and the edge to it.
fn push_node(text: &mut String, row: &Row, mark: Mark) -> Result<(), AllocError> {
    let mapping = &row.mapping;
    text.push_str("  \"")?;
    push_place(text, mapping.place)?;
    text.push_str("\" [label=\"")?;
    push_place(text, mapping.place)?;
    write!(text, "\\nframe {}\\n", mapping.frame)?;
    push_rights(text, mapping.rights)?;
    text.push_str(" ")?;
    push_status(text, mapping.status)?;
    text.push_str(match mark {
        Mark::Same => "\"];\n",
        Mark::Alone => "\", color=green];\n",
        Mark::Changed(_) => "\", color=orange];\n",
    })?;
    let Some(origin) = mapping.origin else {
        return Ok(());
    };
    text.push_str("  \"")?;
    push_place(text, origin)?;
    text.push_str("\" -> \"")?;
    push_place(text, mapping.place)?;
    text.push_str("\";\n")
}
