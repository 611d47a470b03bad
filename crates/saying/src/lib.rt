// The answers to the host's calls, a line each.
#![tactic(auto)]

ghost use Rattle.std.specs.Prelude.{◌≤◌, length};

use rules::{LoadError, Outcome, Ran, Refusal, Rejection, Shown, Stepped};
use std::io;

// Bytes in hex after a blank, '-' for none.
fn say_bytes(rt: &impl Print, bytes: &[u8]) -> io::Result<()>
    requires { length bytes.now ≤ 255 }
{
    if bytes.is_empty() {
        return print!(rt; " -");
    }
    let mut text = [0u8; 510];
    let n = lines::hex(bytes, &mut text);
    print!(rt; " ")?;
    rt.write_all(&text[..n])
}

// The first n bytes.
#[tactic(auto, using(crate::proofs::PartLaws::part_fits))]
fn say_front(rt: &impl Print, bytes: &[u8; 255], n: usize) -> io::Result<()> {
    say_bytes(rt, slice::part_of(bytes, 0, n))
}

#[tactic(auto, using(crate::proofs::PartLaws::word_fits))]
fn say_word(rt: &impl Print, word: &[u8; 66]) -> io::Result<()> {
    say_bytes(rt, word::word_of(word))
}

fn say_outcome(rt: &impl Print, outcome: Outcome) -> io::Result<()> {
    match outcome {
        Outcome::On => print!(rt; " 0 on"),
        Outcome::Command(_) => print!(rt; " 0 command"),
        Outcome::Page => print!(rt; " 0 page"),
        Outcome::Ended => print!(rt; " 0 ended"),
        Outcome::Refused(why) => print!(rt; " {} refused", packing::number(why)),
    }
}

// The command that went out and the reference of the page wanted, and the line's end.
fn say_carried(
    rt: &impl Print,
    outcome: Outcome,
    out: &[u8; 255],
    wanted: &[u8; 66],
) -> io::Result<()> {
    match outcome {
        Outcome::Command(n) => {
            say_front(rt, out, n)?;
            println!(rt; " -")
        }
        Outcome::Page => {
            print!(rt; " -")?;
            say_word(rt, wanted)?;
            println!(rt)
        }
        Outcome::On | Outcome::Ended | Outcome::Refused(_) => println!(rt; " - -"),
    }
}

// The unit and the tag, where a step was taken.
fn say_code(rt: &impl Print, stepped: Stepped) -> io::Result<()> {
    if !packing::writes(stepped.outcome) {
        return print!(rt; " - -");
    }
    print!(rt; " {}", stepped.unit)?;
    say_bytes(rt, &[stepped.tag])
}

pub fn say_stepped(
    rt: &impl Print,
    stepped: Stepped,
    out: &[u8; 255],
    wanted: &[u8; 66],
) -> io::Result<()> {
    print!(rt; "step")?;
    say_outcome(rt, stepped.outcome)?;
    say_code(rt, stepped)?;
    say_carried(rt, stepped.outcome, out, wanted)
}

pub fn say_ran(rt: &impl Print, ran: Ran, out: &[u8; 255], wanted: &[u8; 66]) -> io::Result<()> {
    print!(rt; "run")?;
    say_outcome(rt, ran.outcome)?;
    print!(rt; " {}", ran.count)?;
    say_carried(rt, ran.outcome, out, wanted)
}

pub fn say_responded(
    rt: &impl Print,
    outcome: Outcome,
    out: &[u8; 255],
    wanted: &[u8; 66],
) -> io::Result<()> {
    print!(rt; "respond")?;
    say_outcome(rt, outcome)?;
    say_carried(rt, outcome, out, wanted)
}

pub fn say_loaded(rt: &impl Print, loaded: Result<(), LoadError>) -> io::Result<()> {
    match loaded {
        Ok(()) => println!(rt; "load 0 -"),
        Err(LoadError::Faulty(Rejection { class, place })) => println!(rt; "load {class} {place}"),
        Err(LoadError::Unloaded(why)) => println!(rt; "load {} -", packing::number(why)),
    }
}

// The name of an environment write or an end, and its answer.
fn say_told(rt: &impl Print, call: &str, told: Result<(), Refusal>) -> io::Result<()> {
    match told {
        Ok(()) => println!(rt; "{call} 0"),
        Err(why) => println!(rt; "{call} {}", packing::number(why)),
    }
}

pub fn say_ended(rt: &impl Print, told: Result<(), Refusal>) -> io::Result<()> {
    say_told(rt, "end", told)
}

pub fn say_written(rt: &impl Print, told: Result<(), Refusal>) -> io::Result<()> {
    say_told(rt, "env", told)
}

pub fn say_shown(rt: &impl Print, shown: Shown) -> io::Result<()> {
    if shown.number != 0 {
        return println!(rt; "read {} - -", shown.number);
    }
    print!(rt; "read 0 {}", shown.valuetype)?;
    say_front(rt, &shown.bytes, shown.length)?;
    println!(rt)
}
