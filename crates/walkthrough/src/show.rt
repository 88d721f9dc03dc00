// A document's table in words, or why it is refused.
use documents::document::read_document;
use listing::in_words::InWords;
use std::io;
use tables::refusal::Refusal;
use tables::table::Table;

/// Reads a document and prints what came of it.
pub fn show(rt: &HostRuntime, document: &[u8]) -> io::Result<()> {
    match read_document(document) {
        Ok(table) => show_table(rt, &table),
        Err(refusal) => show_refusal(rt, refusal),
    }
}

fn show_table(rt: &HostRuntime, table: &Table) -> io::Result<()> {
    for statement in table.statements() {
        println!(rt; "{}", InWords(statement))?;
    }
    for plan in table.plans() {
        println!(rt; "{}", InWords(plan))?;
    }
    Ok(())
}

/// Prints a refusal with its number, its place and the rule in words.
pub fn show_refusal(rt: &HostRuntime, refusal: Refusal) -> io::Result<()> {
    let number = refusal.number();
    match refusal.place() {
        Some(place) => println!(rt; "  refusal {number} at place {place}: {refusal}"),
        None => println!(rt; "  refusal {number}: {refusal}"),
    }
}
