// Writes that are done whole or not at all: where there is no memory (18), both areas are as they were, byte for byte.
#![tactic(auto)]

ghost use Rattle.std.specs.Prelude.{◌≡◌, true, false, cond, is_ok, List, ℕ, ◌≤◌, length};
ghost use Rattle.rules.specs.Bytes.{part};
ghost use Rattle.rules.specs.Tlvs.{tlvs};
ghost use Rattle.rules.specs.Pieces.{named};
ghost use Rattle.rules.specs.Page.{service};
ghost use Rattle.rules.specs.Store.{wrote, no_room, write};
ghost use Rattle.rules.specs.Value.{joined, shortest};
ghost use Rattle.rules.specs.Step.{set_all};
ghost use Rattle.rules.specs.Command.{results};
ghost use Rattle.slots.specs.Slots.{tidy_slots};
ghost use Rattle.records.specs.Records.{tidy_records};
ghost use Rattle.variable.specs.View.{view};
ghost use Rattle.results.specs.Asked.{asked};

use rules::Tlv;
use writing::NoMemory;

// Both areas get back the bytes that they had.
fn put_back(
    temp: &mut [u8; 16640],
    perm: &mut [u8; 17920],
    temporary: [u8; 16640],
    permanent: [u8; 17920],
)
    ensures { (temp.new ≡ temporary) × (perm.new ≡ permanent) }
{
    *temp = temporary;
    *perm = permanent;
}

// The pairs of a Set Variable in turn: a later one sees what an earlier one wrote. All are written or none.
pub fn set_all<'a>(
    page: &'a [u8],
    env: &'a [u8; 16640],
    temp: &mut [u8; 16640],
    perm: &mut [u8; 17920],
    start: usize,
    stop: usize,
) -> Result<(), NoMemory>
    requires { (start ≤ stop) × (stop ≤ length page.now) × (length page.now ≤ 4096) × (length (service page.now) ≤ 16) }
    ensures perm_value { set_all (tlvs 1 page.now start stop) (view page.now env.now temp.old perm.old) ≡ cond (is_ok result) (wrote (view page.now env.now temp.new perm.new)) no_room }
    ensures temp_unchanged { is_ok result ≡ false → (temp.new ≡ temp.old) × (perm.new ≡ perm.old) }
    ensures temp_after { tidy_slots temp.old ≡ true → tidy_slots temp.new ≡ true }
    ensures perm_after { tidy_records perm.old ≡ true → tidy_records perm.new ≡ true }
{
    let temporary = *temp;
    let permanent = *perm;
    match setting::set_all(page, env, temp, perm, start, stop) {
        Ok(()) => Ok(()),
        Err(NoMemory) => {
            put_back(temp, perm, temporary, permanent);
            Err(NoMemory)
        }
    }
}

// The length of the variables of a list together, in the shortest form, as a value of a variable; or nothing is written.
pub fn set_length<'a>(
    page: &'a [u8],
    env: &'a [u8; 16640],
    temp: &mut [u8; 16640],
    perm: &mut [u8; 17920],
    n: u8,
    from: usize,
    to: usize,
) -> Result<(), NoMemory>
    requires { (to ≤ length page.now) × (length page.now ≤ 4096) × (length (service page.now) ≤ 16) }
    ensures to_value { write (view page.now env.now temp.old perm.old) n 3 (shortest (length (joined (view page.now env.now temp.old perm.old) (named (part page.now from to))))) ≡ cond (is_ok result) (wrote (view page.now env.now temp.new perm.new)) no_room }
    ensures temp_unchanged { is_ok result ≡ false → (temp.new ≡ temp.old) × (perm.new ≡ perm.old) }
    ensures temp_after { tidy_slots temp.old ≡ true → tidy_slots temp.new ≡ true }
    ensures perm_after { tidy_records perm.old ≡ true → tidy_records perm.new ≡ true }
{
    let temporary = *temp;
    let permanent = *perm;
    match setting::set_length(page, env, temp, perm, n, from, to) {
        Ok(()) => Ok(()),
        Err(NoMemory) => {
            put_back(temp, perm, temporary, permanent);
            Err(NoMemory)
        }
    }
}

// What a response brings: both results or neither.
pub fn write_results(
    page: &[u8],
    temp: &mut [u8; 16640],
    perm: &mut [u8; 17920],
    attributes: u8,
    at: usize,
    general: u8,
    response: &[u8],
    after: Option<Tlv>,
) -> Result<(), NoMemory>
    requires { (length (service page.now) ≤ 16) × (at ≤ 4096) }
    ensures by_index { (env : List ℕ) (stop : ℕ) → results (view page.now env temp.old perm.old) (asked attributes at stop) general response.now after ≡ cond (is_ok result) (wrote (view page.now env temp.new perm.new)) no_room }
    ensures temp_unchanged { is_ok result ≡ false → (temp.new ≡ temp.old) × (perm.new ≡ perm.old) }
    ensures temp_after { tidy_slots temp.old ≡ true → tidy_slots temp.new ≡ true }
    ensures perm_after { tidy_records perm.old ≡ true → tidy_records perm.new ≡ true }
{
    let temporary = *temp;
    let permanent = *perm;
    match results::write_results(page, temp, perm, attributes, at, general, response, after) {
        Ok(()) => Ok(()),
        Err(NoMemory) => {
            put_back(temp, perm, temporary, permanent);
            Err(NoMemory)
        }
    }
}
