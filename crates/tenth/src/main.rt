// Reads a table document from standard input, behind its length in two bytes, and prints how it was taken. Where the input ends
// early, what is there counts.
#![tactic(auto)]

ghost use Rattle.std.specs.Prelude.{◌≤◌, length, IfOk};

use console::load::{document_length, load_line};
use std::io;
use std::io::Read;

// Reads until the buffer is full or the input ends, and says how many bytes came. By hand, since `take` with `read_to_end` asks
// for a few hundred bytes at a time: an input that keeps packets apart would lose the rest of a longer one.
fn fill<R: Read>(input: &mut R, buffer: &mut [u8]) -> io::Result<usize>
    ensures { IfOk result (λ n. n ≤ length buffer.old) }
{
    let mut filled = 0;
    while filled < buffer.len() {
        let got = input.read(&mut buffer[filled..])?;
        if got == 0 {
            break;
        }
        filled += got;
    }
    Ok(filled)
}

fn main(rt: HostRuntime) -> io::Result<()> {
    let mut input = rt.stdin();
    let mut header = [0u8; 2];
    let got = fill(&mut input, &mut header)?;
    let mut document = vec![in rt.alloc(); 0u8; document_length(&header[0..got])]?;
    let got = fill(&mut input, &mut document)?;
    println!(rt; "{}", load_line(&document[0..got]))
}
