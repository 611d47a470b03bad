// Reads pages as lines of hex, judges each, and prints its number and offset as `load 4 21`, or `load 0 -` for an accepted page.
// '-' is a page of no bytes, and a line that is no hex is answered by '?'.
#![tactic(auto)]

use lines::{say, say_number};
use rules::Rejection;
use std::io;
use std::io::Read;

// How many bytes of a line are kept: what is longer is too long for a page.
const LONGEST: usize = 65536;

fn show(rt: &impl Print, judged: Result<(), Rejection>) -> io::Result<()> {
    match judged {
        Ok(()) => say(rt, b"load 0 -\n"),
        Err(Rejection { class, place }) => {
            say(rt, b"load")?;
            say_number(rt, u64::from(class))?;
            say_number(rt, place as u64)?;
            say(rt, b"\n")
        }
    }
}

// Judges the page of a line. One that is too long for a page is judged by its length alone.
fn answer(rt: &impl Print, line: &[u8]) -> io::Result<()> {
    if !lines::is_bytes(line) {
        return say(rt, b"?\n");
    }
    let mut page = [0u8; 65536];
    if page.len() < line.len() / 2 {
        return show(rt, Err(Rejection { class: 1, place: 0 }));
    }
    let n = lines::unhex(line, &mut page);
    show(rt, loader::judge(&page[..n]))
}

// Adds a byte to a line of which some are kept, or answers the line where it ends, and tells how many bytes of it are then kept.
fn add(rt: &impl Print, line: &mut [u8; LONGEST], kept: usize, b: u8) -> io::Result<usize> {
    if b == b'\n' {
        if kept <= LONGEST {
            answer(rt, &line[..kept])?;
        }
        return Ok(0);
    }
    if kept < LONGEST {
        line[kept] = b;
        return Ok(kept + 1);
    }
    Ok(kept)
}

// Answers the lines that end in what came, and tells how many bytes are kept of the line that goes on.
fn feed(
    rt: &impl Print,
    chunk: &[u8],
    line: &mut [u8; LONGEST],
    mut kept: usize,
) -> io::Result<usize> {
    for b in chunk {
        kept = add(rt, line, kept, *b)?;
    }
    Ok(kept)
}

// Nothing says that the input ends, so the turns are counted up to a number that no run reaches.
fn main(rt: HostRuntime) -> io::Result<()> {
    let mut reader = rt.reader();
    let mut line = [0u8; LONGEST];
    let mut kept = 0;
    let mut chunk = [0u8; 4096];
    for _ in 0..u64::MAX {
        let n = reader.read(&mut chunk)?;
        if n == 0 {
            return Ok(());
        }
        kept = feed(&rt, &chunk[..n], &mut line, kept)?;
    }
    Ok(())
}
