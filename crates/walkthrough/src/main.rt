// What a newcomer runs first: a document is read and its table printed in words; it is written out and read again; and then
// damaged copies of it are read, each refused with its number, its place and the rule.
#![tactic(auto)]

mod damage;
mod document;
mod round_trip;
mod show;

use damage::DAMAGES;
use document::DOCUMENT;
use round_trip::go_round;
use show::show;
use std::io;

fn main(rt: HostRuntime) -> io::Result<()> {
    let size = DOCUMENT.len();
    println!(rt; "A document of {size} bytes holds this table:\n")?;
    show(&rt, &DOCUMENT)?;
    println!(rt; "\nThe table goes out and comes back:\n")?;
    go_round(&rt, &DOCUMENT)?;
    println!(rt; "\nDamaged copies of it are refused:\n")?;
    for damage in &DAMAGES {
        println!(rt; "{}", damage.what)?;
        let bytes = damage.done_to(rt.alloc(), &DOCUMENT)?;
        show(&rt, &bytes)?;
    }
    Ok(())
}
