// Opens call books: reads them line by line from standard input and prints what each auction comes to.

#![tactic(auto)]

mod message;

use callbook::{CallBook, run_line};
use message::Message;
use std::io;
use std::io::{BufRead, BufReader};

// Does what a line says, and prints what is to be told.
fn answer(rt: &HostRuntime, book: &mut CallBook, place: usize, line: &[u8]) -> io::Result<()> {
    match run_line(rt.alloc(), book, line) {
        Ok(None) => Ok(()),
        Ok(Some(opening)) => rt.println(opening),
        Err(fault) => rt.println(Message { place, fault }),
    }
}

fn main(rt: HostRuntime) -> io::Result<()> {
    let mut book = CallBook::new(rt.alloc());
    for (place, line) in BufReader::new(rt.alloc(), rt.stdin())?
        .split(rt.alloc(), b'\n')
        .enumerate()
    {
        match line {
            Ok(line) => answer(&rt, &mut book, place, &line)?,
            Err(_) => return rt.println("the rest of the input cannot be read"),
        }
    }
    Ok(())
}
