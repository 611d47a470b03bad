// Runs pages from records on standard input: payload length and kind, two bytes each, low byte first, then the payload.
// Kind 1 is a page, kind 2 a terminal response. After a record that is answered 0 it takes up to 1,000 steps.
// A record that is cut short or of another kind is named with its place in the input, and nothing after it is read.
#![tactic(auto)]

ghost use Rattle.std.specs.Prelude.{◌≡◌, ◌+◌, ◌*◌, ◌≤◌, length, IfOk};
ghost use Rattle.lines.specs.Counts.{IsPrefixLen};

use machine::Machine;
use rules::{LoadError, Outcome, Stepped};
use std::io;
use std::io::Read;

// The machine, and the steps taken since the last accepted load.
#[derive(Drop)]
struct Host {
    machine: Machine,
    steps: u64,
}

// What a record leaves, and how many bytes it has.
#[derive(Drop)]
struct Turn {
    host: Host,
    read: usize,
}

// The answer of a step or a response.
fn number(outcome: Outcome) -> u8 {
    match outcome {
        Outcome::Refused(why) => packing::number(why),
        Outcome::On | Outcome::Command(_) | Outcome::Page | Outcome::Ended => 0,
    }
}

// The page has ended. A refusal from 32 on leaves all as it was.
fn ends(outcome: Outcome) -> bool {
    match outcome {
        Outcome::On | Outcome::Command(_) => false,
        Outcome::Page | Outcome::Ended => true,
        Outcome::Refused(_) => packing::writes(outcome),
    }
}

fn say_end(rt: &impl Print, outcome: Outcome, steps: u64) -> io::Result<()> {
    if !ends(outcome) {
        return Ok(());
    }
    println!(rt; "end steps {steps}")
}

fn say_step(rt: &impl Print, steps: u64, stepped: Stepped) -> io::Result<()> {
    println!(rt;
        "step {steps} unit {} tag {:02X} answer {}",
        stepped.unit,
        stepped.tag,
        number(stepped.outcome)
    )?;
    say_end(rt, stepped.outcome, steps)
}

// Up to 1,000 steps. Their count would start at 0 again only after more steps than any run takes.
fn take_steps(rt: &impl Print, mut host: Host) -> io::Result<Host> {
    let mut out = [0u8; 255];
    for _ in 0..1000 {
        let taken = host.machine.step(&mut out);
        host.machine = taken.machine;
        host.steps = host.steps.wrapping_add(1);
        say_step(rt, host.steps, taken.stepped)?;
        if !matches!(taken.stepped.outcome, Outcome::On) {
            break;
        }
    }
    Ok(host)
}

fn say_load(rt: &impl Print, answer: u8, page: &[u8]) -> io::Result<()> {
    println!(rt; "load {answer} {}", page.len())
}

fn load(rt: &impl Print, host: Host, page: &[u8]) -> io::Result<Host> {
    let steps = host.steps;
    let begun = host.machine.load(page);
    let machine = begun.machine;
    match begun.loaded {
        Ok(()) => {
            say_load(rt, 0, page)?;
            take_steps(rt, Host { machine, steps: 0 })
        }
        Err(LoadError::Faulty(rejection)) => {
            say_load(rt, rejection.class, page)?;
            Ok(Host { machine, steps })
        }
        Err(LoadError::Unloaded(why)) => {
            say_load(rt, packing::number(why), page)?;
            Ok(Host { machine, steps })
        }
    }
}

fn respond(rt: &impl Print, host: Host, response: &[u8]) -> io::Result<Host> {
    let steps = host.steps;
    let mut out = [0u8; 255];
    let answered = host.machine.respond(response, &mut out);
    let machine = answered.machine;
    let outcome = answered.outcome;
    println!(rt; "response {}", number(outcome))?;
    say_end(rt, outcome, steps)?;
    let host = Host { machine, steps };
    if matches!(outcome, Outcome::On) {
        return take_steps(rt, host);
    }
    Ok(host)
}

// A number of two bytes, the low one first.
fn pair(low: u8, high: u8) -> usize
    ensures value { result ≡ low + 256 * high }
    ensures upper_bound { result ≤ 65535 }
{
    leaf::wide(low) + 256 * leaf::wide(high)
}

// Reads until the bytes are full or the input ends, and tells how many came.
fn read_full(reader: &mut impl Read, bytes: &mut [u8]) -> io::Result<usize>
    ensures { IfOk result (λ n. IsPrefixLen n bytes.new) }
{
    let mut done = 0;
    while done < bytes.len() {
        let n = reader.read(&mut bytes[done..])?;
        if n == 0 {
            break;
        }
        done += n;
    }
    Ok(done)
}

fn say_cut(rt: &impl Print, at: u64) -> io::Result<()> {
    println!(rt; "record at byte {at} is cut short")
}

// The payload is read and handed in.
fn take_payload(
    rt: &impl Print,
    reader: &mut impl Read,
    host: Host,
    at: u64,
    kind: usize,
    payload: &mut [u8],
) -> io::Result<Option<Turn>>
    requires { length payload.old ≤ 65535 }
{
    let got = read_full(reader, payload)?;
    if got < payload.len() {
        say_cut(rt, at)?;
        return Ok(None);
    }
    let read = 4 + got;
    let host = if kind == 1 {
        load(rt, host, payload)?
    } else {
        respond(rt, host, payload)?
    };
    Ok(Some(Turn { host, read }))
}

// The record at a place of the input is read and answered. None: nothing more is read.
fn take_record(
    rt: &impl Print,
    reader: &mut impl Read,
    host: Host,
    at: u64,
    payload: &mut [u8],
) -> io::Result<Option<Turn>>
    requires { 65535 ≤ length payload.old }
{
    let mut head = [0u8; 4];
    let got = read_full(reader, &mut head)?;
    if got == 0 {
        return Ok(None);
    }
    if got < 4 {
        say_cut(rt, at)?;
        return Ok(None);
    }
    let kind = pair(head[2], head[3]);
    if kind != 1 && kind != 2 {
        println!(rt; "record at byte {at} is of kind {kind}")?;
        return Ok(None);
    }
    let count = pair(head[0], head[1]);
    take_payload(rt, reader, host, at, kind, &mut payload[..count])
}

// Answers the records of the input. Nothing says that it ends, so the turns are counted up to a number that no run reaches.
pub fn serve(rt: &(impl Input + Print)) -> io::Result<()> {
    let mut reader = rt.reader();
    let mut payload = [0u8; 65536];
    let mut host = Host {
        machine: Machine::create(),
        steps: 0,
    };
    let mut at: u64 = 0;
    for _ in 0..u64::MAX {
        let Some(turn) = take_record(rt, &mut reader, host, at, &mut payload)? else {
            return Ok(());
        };
        host = turn.host;
        at = at.wrapping_add(turn.read as u64);
    }
    Ok(())
}
