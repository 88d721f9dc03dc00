// A document's table written out, compared with the document, and read again.
// A refusal is printed where it comes, as one more thing to show: it is no failure of the program, which `?` would make of it.
use crate::show::show_refusal;
use documents::document::read_document;
use std::io;
use tables::table::Table;
use writing::table::{write_order, write_table};

/// Reads a document, writes its table out and reads it again.
pub fn go_round(rt: &HostRuntime, document: &[u8]) -> io::Result<()> {
    match read_document(document) {
        Ok(table) => {
            write_and_compare(rt, &table, document)?;
            name_order(rt, &table)?;
            write_too_short(rt, &table, document.len())
        }
        Err(refusal) => show_refusal(rt, refusal),
    }
}

fn write_and_compare(rt: &HostRuntime, table: &Table, document: &[u8]) -> io::Result<()> {
    let mut buffer = vec![in rt.alloc(); 0u8; document.len()]?;
    match write_table(table, &mut buffer) {
        Ok(size) => {
            buffer.truncate(size);
            let same = buffer.as_slice() == document;
            println!(rt; "written out it takes {size} bytes, the same as were read: {same}")?;
            read_again(rt, buffer.as_slice())
        }
        Err(refusal) => show_refusal(rt, refusal),
    }
}

fn read_again(rt: &HostRuntime, document: &[u8]) -> io::Result<()> {
    match read_document(document) {
        Ok(table) => {
            let statements = table.statements().len();
            let plans = table.plans().len();
            println!(rt; "read again it has {statements} statements and {plans} plans")
        }
        Err(refusal) => show_refusal(rt, refusal),
    }
}

fn name_order(rt: &HostRuntime, table: &Table) -> io::Result<()> {
    let mut names = vec![in rt.alloc(); 0u8; table.statements().len()]?;
    match write_order(table, &mut names) {
        Ok(_) => println!(rt; "its order is {names:?}"),
        Err(refusal) => show_refusal(rt, refusal),
    }
}

fn write_too_short(rt: &HostRuntime, table: &Table, size: usize) -> io::Result<()> {
    let short = size.saturating_sub(1);
    let mut buffer = vec![in rt.alloc(); 0u8; short]?;
    println!(rt; "into a buffer of {short} bytes")?;
    match write_table(table, &mut buffer) {
        Ok(size) => println!(rt; "  it was written, {size} bytes"),
        Err(refusal) => show_refusal(rt, refusal),
    }
}
