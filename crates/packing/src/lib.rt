// What a call answers, packed in one number for C.
//
//     bits 0 to 7     the answer
//     bits 8 to 15    the outcome of a step, a run or a response; the type of a value read
//     bits 16 to 31   the offset of a refused load; the command's length; the length of a value read
//     bits 32 to 63   the count of a run; of a step the unit, and its tag from bit 40 on
#![tactic(auto, unfolding(rules::specs::Numbers::number, rules::specs::Numbers::told_number, rules::specs::Numbers::loaded_number, rules::specs::Numbers::outcome_number, rules::specs::Numbers::offset, rules::specs::Calls::answer_number, crate::specs::Packed::outcome_kind, crate::specs::Packed::command_length, crate::specs::Packed::kind_of, crate::specs::Packed::size_of, crate::specs::Packed::high_of, crate::specs::Packed::packed, crate::specs::Packed::packed_outcome))]

ghost use Rattle.std.specs.Prelude.{◌≡◌, List, ℕ, ◌+◌, ◌*◌, ◌<◌, ltb};
ghost use Rattle.rules.specs.Numbers.{number as Numbers·number, offset, outcome_number};
ghost use Rattle.rules.specs.Calls.{told as Calls·told, loaded as Calls·loaded, taken, ran as Calls·ran, responded, shown as Calls·shown};
ghost use Rattle.packing.specs.Packed.{laid, command_length, packed_outcome, packed};

use rules::{LoadError, Outcome, Ran, Refusal, Shown, Stepped};

// The number of a refusal.
pub fn number(why: Refusal) -> u8
    ensures { result ≡ Numbers·number why }
{
    match why {
        Refusal::Syntax => 16,
        Refusal::Variable => 17,
        Refusal::Anchor => 17,
        Refusal::Memory => 18,
        Refusal::Security => 19,
        Refusal::Disallowed => 22,
        Refusal::Buffer => 32,
        Refusal::Call => 33,
        Refusal::Response => 34,
        Refusal::State => 35,
    }
}

fn lay(number: u8, kind: u8, size: usize, high: usize) -> u64
    requires { (size < 65536) × (high < 4294967296) }
    ensures { result ≡ laid number kind size high }
{
    u64::from(number) + 256 * u64::from(kind) + 65536 * size as u64 + 4294967296 * high as u64
}

fn lay_outcome(outcome: Outcome, high: usize) -> u64
    requires { (command_length outcome < 65536) × (high < 4294967296) }
    ensures { result ≡ packed_outcome outcome high }
{
    match outcome {
        Outcome::On => lay(0, 0, 0, high),
        Outcome::Command(length) => lay(0, 1, length, high),
        Outcome::Page => lay(0, 2, 0, high),
        Outcome::Ended => lay(0, 3, 0, high),
        Outcome::Refused(why) => lay(number(why), 4, 0, high),
    }
}

// A step, a run or a response that is refused by a number from 32 on leaves all as it was.
pub fn writes(outcome: Outcome) -> bool
    ensures { result ≡ ltb (outcome_number outcome) 32 }
{
    match outcome {
        Outcome::Refused(why) => number(why) < 32,
        Outcome::On | Outcome::Command(_) | Outcome::Page | Outcome::Ended => true,
    }
}

pub fn pack_told(told: Result<(), Refusal>) -> u64
    ensures { result ≡ packed (Calls·told told) }
{
    match told {
        Ok(()) => 0,
        Err(why) => lay(number(why), 0, 0, 0),
    }
}

pub fn pack_loaded(loaded: Result<(), LoadError>) -> u64
    requires { offset loaded < 65536 }
    ensures { result ≡ packed (Calls·loaded loaded) }
{
    let Err(error) = loaded else {
        return 0;
    };
    match error {
        LoadError::Faulty(rejection) => lay(rejection.class, 0, rejection.place, 0),
        LoadError::Unloaded(why) => lay(number(why), 0, 0, 0),
    }
}

pub fn pack_stepped(stepped: Stepped) -> u64
    requires { (command_length stepped.outcome < 65536) × (stepped.unit < 65536) }
    ensures { (buffer reference : List ℕ) → result ≡ packed (taken stepped buffer reference) }
{
    lay_outcome(
        stepped.outcome,
        stepped.unit + 256 * usize::from(stepped.tag),
    )
}

pub fn pack_ran(ran: Ran) -> u64
    requires { (command_length ran.outcome < 65536) × (ran.count < 4294967296) }
    ensures { (buffer reference : List ℕ) → result ≡ packed (Calls·ran ran buffer reference) }
{
    lay_outcome(ran.outcome, ran.count)
}

pub fn pack_responded(outcome: Outcome) -> u64
    requires { command_length outcome < 65536 }
    ensures { (buffer reference : List ℕ) → result ≡ packed (responded outcome buffer reference) }
{
    lay_outcome(outcome, 0)
}

pub fn pack_shown(shown: Shown) -> u64
    requires { shown.length < 65536 }
    ensures { result ≡ packed (Calls·shown shown) }
{
    lay(shown.number, shown.valuetype, shown.length, 0)
}
