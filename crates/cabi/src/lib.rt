// The interpreter for C: the state of a card lies in a lent buffer of 56,701 bytes, and what a call answers comes back packed in one number.
#![tactic(auto)]

ghost use Rattle.std.specs.Prelude.{◌≡◌, cond, [], ◌+◌, ◌*◌, ◌≤◌, length};
ghost use Rattle.rules.specs.Loader.{judge};
ghost use Rattle.rules.specs.Calls.{create, set_environment, load, step, run_up_to, respond, end, read_variable};
ghost use Rattle.buffer.specs.Buffer.{size, encoded};
ghost use Rattle.cabi.specs.Packed.{packed};
ghost use Rattle.cabi.specs.Serves.{Serves};

use machine::Machine;
use rules::Rejection;

// 32, and above it the outcome refused: what a step, a run or a response answers for a state buffer of another length.
const MISFIT: u64 = 0x0420;

// A number in the lowest byte and an offset above it.
fn pack(number: u8, at: usize) -> u64
    requires { at ≤ 4096 }
    ensures { result ≡ number + 256 * at }
{
    number as u64 + 256 * at as u64
}

// The loader's number and offset of a page, 0 where it is accepted.
#[unsafe(no_mangle)]
pub extern "C" fn usat_judge(page: &[u8]) -> u64
    ensures { result ≡ packed (judge page.now) }
{
    let judged = loader::judge(page);
    match judged {
        Ok(()) => 0,
        Err(
            Rejection {
                class: number,
                place: at,
            },
        ) => pack(number, at),
    }
}

// The buffer comes to hold the machine after a call, where that is another than before.
fn settle(machine: Machine, changed: bool, state: &mut [u8])
    requires { length state.old ≡ size }
    ensures { state.new ≡ cond changed (encoded machine.state) state.old }
{
    if !changed {
        return;
    }
    buffer::encode(machine.state, state);
}

// A new card at rest, whatever the buffer held.
#[unsafe(no_mangle)]
pub extern "C" fn usat_create(state: &mut [u8]) -> u64
    ensures { Serves create state.old [] result state.new [] }
{
    if state.len() != buffer::SIZE {
        return 32;
    }
    settle(Machine::create(), true, state);
    0
}

// The host sets an environment variable.
#[unsafe(no_mangle)]
pub extern "C" fn usat_set_environment(state: &mut [u8], number: u8, value: &[u8]) -> u64
    ensures { Serves (set_environment number value.now) state.old [] result state.new [] }
{
    if state.len() != buffer::SIZE {
        return 32;
    }
    let machine = Machine {
        state: buffer::decode(state),
    };
    let written = machine.set_environment(number, value);
    let told = written.told;
    let answer = packing::pack_told(told);
    settle(written.machine, answer == 0, state);
    answer
}

// A page is loaded.
#[unsafe(no_mangle)]
pub extern "C" fn usat_load(state: &mut [u8], page: &[u8]) -> u64
    ensures { Serves (load page.now) state.old [] result state.new [] }
{
    if state.len() != buffer::SIZE {
        return 32;
    }
    let machine = Machine {
        state: buffer::decode(state),
    };
    let begun = machine.load(page);
    let loaded = begun.loaded;
    let answer = packing::pack_loaded(loaded);
    settle(begun.machine, answer == 0, state);
    answer
}

// One step.
#[unsafe(no_mangle)]
pub extern "C" fn usat_step(state: &mut [u8], command: &mut [u8]) -> u64
    ensures { Serves (step command.old) state.old command.old result state.new command.new }
{
    if state.len() != buffer::SIZE {
        return MISFIT;
    }
    let machine = Machine {
        state: buffer::decode(state),
    };
    let taken = machine.step(command);
    let stepped = taken.stepped;
    let outcome = stepped.outcome;
    settle(taken.machine, packing::writes(outcome), state);
    packing::pack_stepped(stepped)
}

// Up to n steps.
#[unsafe(no_mangle)]
pub extern "C" fn usat_run(state: &mut [u8], most: u32, command: &mut [u8]) -> u64
    ensures { Serves (run_up_to most command.old) state.old command.old result state.new command.new }
{
    if state.len() != buffer::SIZE {
        return MISFIT;
    }
    let machine = Machine {
        state: buffer::decode(state),
    };
    let gone = machine.run(most as usize, command);
    let ran = gone.ran;
    let outcome = ran.outcome;
    settle(gone.machine, packing::writes(outcome), state);
    packing::pack_ran(ran)
}

// A terminal response.
#[unsafe(no_mangle)]
pub extern "C" fn usat_respond(state: &mut [u8], response: &[u8], command: &mut [u8]) -> u64
    ensures { Serves (respond response.now command.old) state.old command.old result state.new command.new }
{
    if state.len() != buffer::SIZE {
        return MISFIT;
    }
    let machine = Machine {
        state: buffer::decode(state),
    };
    let answered = machine.respond(response, command);
    let outcome = answered.outcome;
    settle(answered.machine, packing::writes(outcome), state);
    packing::pack_responded(outcome)
}

// The page ends.
#[unsafe(no_mangle)]
pub extern "C" fn usat_end(state: &mut [u8]) -> u64
    ensures { Serves end state.old [] result state.new [] }
{
    if state.len() != buffer::SIZE {
        return 32;
    }
    let machine = Machine {
        state: buffer::decode(state),
    };
    let ended = machine.end();
    let told = ended.told;
    let answer = packing::pack_told(told);
    settle(ended.machine, answer == 0, state);
    answer
}

// The host reads a variable: the value and zeros behind it, 255 bytes in all.
#[unsafe(no_mangle)]
pub extern "C" fn usat_read(state: &[u8], number: u8, service: &[u8], value: &mut [u8]) -> u64
    ensures { Serves (read_variable number service.now) state.now value.old result state.now value.new }
{
    if state.len() != buffer::SIZE {
        return 32;
    }
    if value.len() < 255 {
        return 32;
    }
    let machine = Machine {
        state: buffer::decode(state),
    };
    let shown = machine.read(number, service);
    if shown.number == 0 {
        pour::pour(value, 0, &shown.bytes);
        return packing::pack_shown(shown);
    }
    packing::pack_shown(shown)
}
