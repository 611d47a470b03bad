// Writes of variables (clause 6.1), and where there is no memory for one.
#![tactic(auto)]

ghost use Rattle.std.specs.Prelude.{◌≡◌, true, false, cond, is_ok, List, ℕ, ◌≤◌, ◌<◌, length};
ghost use Rattle.rules.specs.Page.{service};
ghost use Rattle.rules.specs.Card.{held, stored};
ghost use Rattle.rules.specs.Store.{place_for, wrote, no_room, write_temporary, write_permanent, write};
ghost use Rattle.slots.specs.Slots.{tidy_slots};
ghost use Rattle.records.specs.Records.{records, tidy_records};
ghost use Rattle.variable.specs.View.{view};

use leaf::wide;

// No memory for a value (number 18).
#[derive(Clone, Copy, PartialEq, Eq)]
pub struct NoMemory;

// A value in slot k of the temporary area.
#[tactic(auto, using(crate::proofs::WriteLaws::temporary_laws))]
fn write_temporary(
    temp: &mut [u8; 16640],
    k: usize,
    valuetype: u8,
    bytes: &[u8],
) -> Result<(), NoMemory>
    requires { (k < 64) × (length bytes.now ≤ 255) }
    ensures by_index { (page env perm : List ℕ) → write_temporary (view page env temp.old perm) k (held valuetype bytes.now) ≡ cond (is_ok result) (wrote (view page env temp.new perm)) no_room }
    ensures temp_unchanged { is_ok result ≡ false → temp.new ≡ temp.old }
    ensures temp_after { tidy_slots temp.old ≡ true → tidy_slots temp.new ≡ true }
{
    let room = slots::room_with(temp, k, bytes.len());
    if 2048 < room {
        return Err(NoMemory);
    }
    slots::write_slot(temp, k, valuetype, bytes);
    Ok(())
}

// A value in the record of a permanent variable, or in the first free one.
#[tactic(auto, using(crate::proofs::WriteLaws::permanent_laws))]
fn write_permanent(
    page: &[u8],
    perm: &mut [u8; 17920],
    n: u8,
    valuetype: u8,
    bytes: &[u8],
) -> Result<(), NoMemory>
    requires { (length (service page.now) ≤ 16) × (length bytes.now ≤ 255) }
    ensures by_index { (env temp : List ℕ) → write_permanent (view page.now env temp perm.old) (place_for (service page.now) n (records perm.old)) (stored (service page.now) n valuetype bytes.now) ≡ cond (is_ok result) (wrote (view page.now env temp perm.new)) no_room }
    ensures perm_unchanged { is_ok result ≡ false → perm.new ≡ perm.old }
    ensures perm_after { tidy_records perm.old ≡ true → tidy_records perm.new ≡ true }
{
    let id = variable::service_of(page);
    let Some(k) = records::place_for(perm, id, n) else {
        return Err(NoMemory);
    };
    let total = records::record_room_with(perm, k, bytes.len());
    if 2048 < total {
        return Err(NoMemory);
    }
    records::write_record(perm, k, n, id, valuetype, bytes);
    Ok(())
}

// A variable gets a value of a type; where there is no memory for it, nothing is written.
pub fn write_variable(
    page: &[u8],
    temp: &mut [u8; 16640],
    perm: &mut [u8; 17920],
    n: u8,
    valuetype: u8,
    bytes: &[u8],
) -> Result<(), NoMemory>
    requires { length (service page.now) ≤ 16 }
    ensures by_index { (env : List ℕ) → write (view page.now env temp.old perm.old) n valuetype bytes.now ≡ cond (is_ok result) (wrote (view page.now env temp.new perm.new)) no_room }
    ensures temp_unchanged { is_ok result ≡ false → temp.new ≡ temp.old }
    ensures perm_unchanged { is_ok result ≡ false → perm.new ≡ perm.old }
    ensures temp_after { tidy_slots temp.old ≡ true → tidy_slots temp.new ≡ true }
    ensures perm_after { tidy_records perm.old ≡ true → tidy_records perm.new ≡ true }
{
    if 255 < bytes.len() {
        return Err(NoMemory);
    }
    if n < 0x40 {
        return Ok(());
    }
    if n < 0x80 {
        return write_permanent(page, perm, n, valuetype, bytes);
    }
    if n < 0xC0 {
        return write_temporary(temp, wide(n) - 0x80, valuetype, bytes);
    }
    Ok(())
}
