// Drives a packed image and a forcing store through the same steps, and prints each step and the cells that are ON after it.
// Then asks the forcing store which cells are forced.
#![tactic(auto)]

mod frame;
mod words;

use cells::forcing::ForcingStore;
use cells::layout::{CELL_BYTES, CELLS, Position};
use cells::packed::PackedImage;
use cells::store::CellStore;
use frame::FRAME;
use listing::in_words::InWords;
use listing::words::state_label;
use std::io;
use store_steps::step::{Step, perform};
use tables::limits::{INPUT_CELLS, OUTPUT_CELLS};
use tables::place::{Buffer, State};
use words::StepWords;

const STEPS: [Step; 15] = [
    Step::Read(Buffer::Input, 0),
    Step::Take(CELL_BYTES),
    Step::Read(Buffer::Input, 150),
    Step::Read(Buffer::Input, INPUT_CELLS),
    Step::Write(Buffer::Output, 0, State::On),
    Step::Read(Buffer::Output, 0),
    Step::Read(Buffer::Input, INPUT_CELLS),
    Step::Write(Buffer::Input, 150, State::Off),
    Step::Write(Buffer::Input, 0, State::On),
    Step::Write(Buffer::Input, INPUT_CELLS + 1, State::Off),
    Step::Write(Buffer::Output, OUTPUT_CELLS, State::On),
    Step::Read(Buffer::Output, OUTPUT_CELLS),
    Step::Take(CELL_BYTES - 1),
    Step::Take(CELL_BYTES),
    Step::Clear,
];

// Prints the cells that are ON.
fn print_on(rt: &HostRuntime, cells: &[bool; CELLS]) -> io::Result<()> {
    print!(rt; "    ON:")?;
    for (index, on) in cells.iter().enumerate() {
        if *on {
            let (buffer, code) = Position::nth(index).cell();
            print!(rt; " {}", InWords(&buffer.cell(code)))?;
        }
    }
    println!(rt; "")
}

// Takes a store through the steps.
fn drive<S: CellStore>(rt: &HostRuntime, store: &mut S) -> io::Result<()> {
    for step in STEPS {
        let outcome = perform(store, &FRAME, step);
        let words = StepWords(step);
        match outcome.answer {
            Some(state) => println!(rt; "  {words}: {}", state_label(state))?,
            None => println!(rt; "  {words}")?,
        }
        print_on(rt, &outcome.cells)?;
    }
    Ok(())
}

// Prints whether a cell is forced.
fn print_forced(
    rt: &HostRuntime,
    store: &ForcingStore,
    buffer: Buffer,
    code: u16,
) -> io::Result<()> {
    let cell = buffer.cell(code);
    match store.forced(buffer, code) {
        Some(state) => println!(rt; "  {} is forced {}", InWords(&cell), state_label(state)),
        None => println!(rt; "  {} is not forced", InWords(&cell)),
    }
}

// Prints what the panel would show of a store with some cells overridden.
fn show_forced(rt: &HostRuntime, store: &mut ForcingStore) -> io::Result<()> {
    store.take(&FRAME);
    store.write(Buffer::Output, 0, State::On);
    store.write(Buffer::Input, 150, State::Off);
    store.write(Buffer::Input, 0, State::On);
    print_forced(rt, store, Buffer::Output, 0)?;
    print_forced(rt, store, Buffer::Input, 150)?;
    print_forced(rt, store, Buffer::Input, 0)?;
    print_forced(rt, store, Buffer::Output, 1)?;
    print_forced(rt, store, Buffer::Input, INPUT_CELLS)
}

fn main(rt: HostRuntime) -> io::Result<()> {
    println!(rt; "packed image")?;
    let mut packed = PackedImage::new();
    drive(&rt, &mut packed)?;
    println!(rt; "forcing store")?;
    let mut forcing = ForcingStore::new();
    drive(&rt, &mut forcing)?;
    println!(rt; "forced")?;
    show_forced(&rt, &mut forcing)
}
