// Reads host calls on standard input, a line each, and writes one answer line for each.
// An empty line and a line that begins with '#' are passed over; any other line that is no call is answered by '?' and changes nothing.
#![tactic(auto)]

mod calls;

use calls::Call;
use machine::Machine;
use saying::{say_ended, say_loaded, say_ran, say_responded, say_shown, say_stepped, say_written};
use std::io;
use std::io::Read;

// The bytes of the longest line that is a call.
const LONGEST: usize = 65536;

// The machine, and how many bytes of a line are held: one more than the longest has for a line that is too long.
#[derive(Drop)]
struct Host {
    machine: Machine,
    held: usize,
}

fn step(rt: &impl Print, machine: Machine) -> io::Result<Machine> {
    let mut out = [0u8; 255];
    let taken = machine.step(&mut out);
    let after = taken.machine;
    say_stepped(rt, taken.stepped, &out, &after.state.wanted)?;
    Ok(after)
}

fn run(rt: &impl Print, machine: Machine, most: usize) -> io::Result<Machine> {
    let mut out = [0u8; 255];
    let gone = machine.run(most, &mut out);
    let after = gone.machine;
    say_ran(rt, gone.ran, &out, &after.state.wanted)?;
    Ok(after)
}

fn respond(rt: &impl Print, machine: Machine, response: &[u8]) -> io::Result<Machine> {
    let mut out = [0u8; 255];
    let answered = machine.respond(response, &mut out);
    let after = answered.machine;
    say_responded(rt, answered.outcome, &out, &after.state.wanted)?;
    Ok(after)
}

fn load(rt: &impl Print, machine: Machine, page: &[u8]) -> io::Result<Machine> {
    let begun = machine.load(page);
    say_loaded(rt, begun.loaded)?;
    Ok(begun.machine)
}

fn end(rt: &impl Print, machine: Machine) -> io::Result<Machine> {
    let settled = machine.end();
    say_ended(rt, settled.told)?;
    Ok(settled.machine)
}

fn write(rt: &impl Print, machine: Machine, number: u8, value: &[u8]) -> io::Result<Machine> {
    let settled = machine.set_environment(number, value);
    say_written(rt, settled.told)?;
    Ok(settled.machine)
}

// Does a call, answers it, and gives the machine after it.
fn act(rt: &impl Print, machine: Machine, call: Call<'_>) -> io::Result<Machine> {
    match call {
        Call::Nothing => Ok(machine),
        Call::Create => {
            println!(rt; "create 0")?;
            Ok(Machine::create())
        }
        Call::Step => step(rt, machine),
        Call::End => end(rt, machine),
        Call::Run(most) => run(rt, machine, most),
        Call::Load(page) => load(rt, machine, page),
        Call::Respond(response) => respond(rt, machine, response),
        Call::Write(number, value) => write(rt, machine, number, value),
        Call::Read(number, service) => {
            say_shown(rt, machine.read(number, service))?;
            Ok(machine)
        }
    }
}

// A line has ended. One that is too long is no call.
fn close(
    rt: &impl Print,
    machine: Machine,
    line: &[u8; LONGEST],
    held: usize,
    buffer: &mut [u8; 32768],
) -> io::Result<Machine> {
    let call = if held <= LONGEST {
        calls::of_line(&line[..held], buffer)
    } else {
        None
    };
    let Some(call) = call else {
        println!(rt; "?")?;
        return Ok(machine);
    };
    act(rt, machine, call)
}

// Adds bytes to a line of which some are held, and tells how many then are.
fn add(line: &mut [u8; LONGEST], held: usize, bytes: &[u8]) -> usize {
    if LONGEST < held {
        return held;
    }
    if LONGEST - held < bytes.len() {
        return LONGEST + 1;
    }
    pour::pour(line, held, bytes);
    held + bytes.len()
}

// Does the calls of the lines that end in what came, and holds the line that goes on.
fn feed(
    rt: &impl Print,
    mut host: Host,
    chunk: &[u8],
    line: &mut [u8; LONGEST],
    buffer: &mut [u8; 32768],
) -> io::Result<Host> {
    for piece in chunk.split_inclusive(|b| *b == b'\n') {
        match piece.strip_suffix(b"\n") {
            Some(end) => {
                let held = add(line, host.held, end);
                host.machine = close(rt, host.machine, line, held, buffer)?;
                host.held = 0;
            }
            None => host.held = add(line, host.held, piece),
        }
    }
    Ok(host)
}

// Nothing says that the input ends, so the turns are counted up to a number that no run reaches.
fn main(rt: HostRuntime) -> io::Result<()> {
    let mut reader = rt.reader();
    let mut chunk = [0u8; 65536];
    let mut line = [0u8; LONGEST];
    let mut buffer = [0u8; 32768];
    let mut host = Host {
        machine: Machine::create(),
        held: 0,
    };
    for _ in 0..u64::MAX {
        let n = reader.read(&mut chunk)?;
        if n == 0 {
            close(&rt, host.machine, &line, host.held, &mut buffer)?;
            return Ok(());
        }
        host = feed(&rt, host, &chunk[..n], &mut line, &mut buffer)?;
    }
    Ok(())
}
