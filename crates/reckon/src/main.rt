// Prints the account of the ticket in the file `ticket.bin`; one that cannot be read counts as empty.
#![tactic(auto)]

use account::account;
use bank::Bank;
use forms::Shipped;
use std::{fs, io};

fn main(rt: HostRuntime) -> io::Result<()> {
    let heap = rt.alloc();
    let ticket = fs::read(&rt, "ticket.bin").unwrap_or(Vec::new(heap));
    rt.print(account(heap, &Shipped, &ticket)?)
}
