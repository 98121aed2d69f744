// Holds the shipped bank to examples: those that IBM's manuals print, and a few worked by hand.
#![tactic(auto)]

mod fault;
mod hex;
mod row;

use forms::Shipped;
use std::{fs, io};

// Prints each example that does not agree, and then how many do.
fn account(rt: &HostRuntime, text: &str) -> io::Result<()> {
    let mut all = 0usize;
    let mut differ = 0usize;
    for (number, line) in (1usize..).zip(text.lines()) {
        if line.starts_with('#') {
            continue;
        }
        all += 1;
        if !row::agrees(&Shipped, rt.alloc(), line)? {
            differ += 1;
            println!(rt; "line {number}: {line}")?;
        }
    }
    let agree = all - differ;
    println!(rt; "{all} examples: {agree} agree, {differ} do not")
}

fn main(rt: HostRuntime) -> io::Result<()> {
    match fs::read_to_string(&rt, "published.tsv") {
        Ok(text) => account(&rt, text.as_str()),
        Err(_) => println!(rt; "0 examples: published.tsv cannot be read"),
    }
}
