// What a response brings (clause 8.7.5): the general result, then the output.
#![tactic(auto)]

ghost use Rattle.std.specs.Prelude.{◌≡◌, true, cond, is_ok, List, [], ◌∷◌, ℕ, ◌≤◌, length};
ghost use Rattle.rules.specs.Page.{service};
ghost use Rattle.rules.specs.Store.{wrote, no_room, write};
ghost use Rattle.rules.specs.Command.{has_general, has_output, general_number, output_number, output, write_slot, results};
ghost use Rattle.slots.specs.Slots.{tidy_slots};
ghost use Rattle.records.specs.Records.{tidy_records};
ghost use Rattle.variable.specs.View.{view};
ghost use Rattle.results.specs.Asked.{asked};

use leaf::wide;
use rules::Tlv;
use writing::NoMemory;

// The general result, where the command asks for it.
fn write_general(
    page: &[u8],
    temp: &mut [u8; 16640],
    perm: &mut [u8; 17920],
    attributes: u8,
    at: usize,
    general: u8,
) -> Result<(), NoMemory>
    requires { length (service page.now) ≤ 16 }
    ensures by_index { (env : List ℕ) (stop : ℕ) → cond (has_general (asked attributes at stop)) (write (view page.now env temp.old perm.old) (general_number page.now (asked attributes at stop)) 0 (general ∷ [])) (wrote (view page.now env temp.old perm.old)) ≡ cond (is_ok result) (wrote (view page.now env temp.new perm.new)) no_room }
    ensures temp_after { tidy_slots temp.old ≡ true → tidy_slots temp.new ≡ true }
    ensures perm_after { tidy_records perm.old ≡ true → tidy_records perm.new ≡ true }
{
    if attributes % 2 == 1 {
        let one = [general];
        let number = slice::byte_at(page, at);
        return writing::write_variable(page, temp, perm, number, 0, &one);
    }
    Ok(())
}

// The output, where the command asks for it.
fn write_output(
    page: &[u8],
    temp: &mut [u8; 16640],
    perm: &mut [u8; 17920],
    attributes: u8,
    at: usize,
    response: &[u8],
    after: Option<Tlv>,
) -> Result<(), NoMemory>
    requires { (length (service page.now) ≤ 16) × (at ≤ 4096) }
    ensures by_index { (env : List ℕ) (stop : ℕ) → cond (has_output (asked attributes at stop)) (write_slot (view page.now env temp.old perm.old) (output_number page.now (asked attributes at stop)) (output response.now (asked attributes at stop) after)) (wrote (view page.now env temp.old perm.old)) ≡ cond (is_ok result) (wrote (view page.now env temp.new perm.new)) no_room }
    ensures temp_after { tidy_slots temp.old ≡ true → tidy_slots temp.new ≡ true }
    ensures perm_after { tidy_records perm.old ≡ true → tidy_records perm.new ≡ true }
{
    if attributes / 4 % 2 == 1 {
        let number = slice::byte_at(page, at + wide(attributes % 2));
        let required = attributes / 2 % 2 == 1;
        let valuetype = response::output_type(response, required, after);
        let bytes = response::output_bytes(response, required, after);
        return writing::write_variable(page, temp, perm, number, valuetype, bytes);
    }
    Ok(())
}

// The general result, then the output. Where there is no memory for the output, the general result stays written.
pub fn write_results(
    page: &[u8],
    temp: &mut [u8; 16640],
    perm: &mut [u8; 17920],
    attributes: u8,
    at: usize,
    general: u8,
    response: &[u8],
    after: Option<Tlv>,
) -> Result<(), NoMemory>
    requires { (length (service page.now) ≤ 16) × (at ≤ 4096) }
    ensures by_index { (env : List ℕ) (stop : ℕ) → results (view page.now env temp.old perm.old) (asked attributes at stop) general response.now after ≡ cond (is_ok result) (wrote (view page.now env temp.new perm.new)) no_room }
    ensures temp_after { tidy_slots temp.old ≡ true → tidy_slots temp.new ≡ true }
    ensures perm_after { tidy_records perm.old ≡ true → tidy_records perm.new ≡ true }
{
    write_general(page, temp, perm, attributes, at, general)?;
    write_output(page, temp, perm, attributes, at, response, after)
}
