//! What an accessor returns, as text.

use crate::text::Text;
use ipc_table_views::{Blocks, Buffers, KeyValueTable, Nodes, TableFault, Tables};
use std::fmt::{Debug, Display};

/// Appends the fault of a malformed part.
pub fn put_fault(out: &mut Text, fault: TableFault) {
    out.put("{\"fault\":");
    out.name(&fault);
    out.put("}");
}

/// The part, where it is present. Otherwise null or its fault is appended.
pub fn present<T: Drop>(out: &mut Text, part: Result<Option<T>, TableFault>) -> Option<T> {
    match part {
        Ok(Some(part)) => return Some(part),
        Ok(None) => out.put("null"),
        Err(fault) => put_fault(out, fault),
    }
    None
}

/// Appends a number or a boolean.
pub fn put_value<T: Display + Drop>(out: &mut Text, part: Result<T, TableFault>) {
    match part {
        Ok(value) => out.show(&value),
        Err(fault) => put_fault(out, fault),
    }
}

/// Appends the name of a variant.
pub fn put_name<T: Debug + Drop>(out: &mut Text, part: Result<T, TableFault>) {
    match part {
        Ok(name) => out.name(&name),
        Err(fault) => put_fault(out, fault),
    }
}

/// Appends a text.
pub fn put_optional_text(out: &mut Text, part: Result<Option<&str>, TableFault>) {
    if let Some(text) = present(out, part) {
        out.quoted(text);
    }
}

/// Appends pairs of texts.
pub fn put_pairs(out: &mut Text, pairs: Result<Option<Tables<'_, KeyValueTable>>, TableFault>) {
    let Some(pairs) = present(out, pairs) else {
        return;
    };
    out.put("[");
    for index in 0..pairs.len() {
        out.comma();
        match pairs.get(index) {
            Ok(pair) => {
                out.put("[");
                put_optional_text(out, pair.key());
                out.put(",");
                put_optional_text(out, pair.value());
                out.put("]");
            }
            Err(fault) => put_fault(out, fault),
        }
    }
    out.put("]");
}

/// Appends the nodes of a batch.
pub fn put_nodes(out: &mut Text, nodes: Result<Option<Nodes<'_>>, TableFault>) {
    let Some(nodes) = present(out, nodes) else {
        return;
    };
    out.put("[");
    for index in 0..nodes.len() {
        let node = nodes.get(index);
        out.comma();
        out.pair(&node.length, &node.null_count);
    }
    out.put("]");
}

/// Appends the buffers of a batch.
pub fn put_buffers(out: &mut Text, buffers: Result<Option<Buffers<'_>>, TableFault>) {
    let Some(buffers) = present(out, buffers) else {
        return;
    };
    out.put("[");
    for index in 0..buffers.len() {
        let buffer = buffers.get(index);
        out.comma();
        out.pair(&buffer.offset, &buffer.length);
    }
    out.put("]");
}

/// Appends the blocks of a footer.
pub fn put_blocks(out: &mut Text, blocks: Result<Option<Blocks<'_>>, TableFault>) {
    let Some(blocks) = present(out, blocks) else {
        return;
    };
    out.put("[");
    for index in 0..blocks.len() {
        let block = blocks.get(index);
        out.comma();
        out.put("[");
        out.show(&block.offset);
        out.put(",");
        out.show(&block.meta_data_length);
        out.put(",");
        out.show(&block.body_length);
        out.put("]");
    }
    out.put("]");
}
