// The environment and the temporary area on lent arrays (clause 6.1).
#![tactic(auto)]

ghost use Rattle.std.specs.Prelude.{◌≡◌, true, cond, ◌+◌, ◌*◌, ◌≤◌, ◌<◌, length, get_or, set};
ghost use Rattle.rules.specs.Card.{Slot, free, held};
ghost use Rattle.rules.specs.Store.{value_bytes, value_type, room};
ghost use Rattle.rules.specs.Keep.{cleared, listed};
ghost use Rattle.pour.specs.Pour.{blank};
ghost use Rattle.slots.specs.Slots.{slots, laid, is_held, with_slot, sifted, tidy_slots, sound_slot, sound_slots};

use leaf::{among_bytes, wide};
use pour::{all_zero, copy, fill, wipe};

// Slot k holds a value.
#[tactic(auto, using(crate::proofs::SlotLaws::slot_laws))]
pub fn is_held(area: &[u8; 16640], k: usize) -> bool
    requires { k < 64 }
    ensures { result ≡ is_held (get_or (slots area.now) k free) }
{
    area[k * 260] != 0
}

// The type of the value in slot k.
#[tactic(auto, using(crate::proofs::SlotLaws::slot_laws))]
pub fn slot_type(area: &[u8; 16640], k: usize) -> u8
    requires { k < 64 }
    ensures { result ≡ value_type (get_or (slots area.now) k free) }
{
    let head = k * 260;
    if area[head] == 0 { 0 } else { area[head + 1] }
}

// The length of the value in slot k.
#[tactic(auto, using(crate::proofs::SlotLaws::slot_laws))]
pub fn slot_length(area: &[u8; 16640], k: usize) -> usize
    requires { k < 64 }
    ensures { (result ≡ length (value_bytes (get_or (slots area.now) k free))) × (result < 256) }
{
    slot_value(area, k).len()
}

// The bytes of the value in slot k.
#[tactic(auto, using(crate::proofs::SlotLaws::slot_laws))]
pub fn slot_value(area: &[u8; 16640], k: usize) -> &[u8]
    requires { k < 64 }
    ensures { (result.now ≡ value_bytes (get_or (slots area.now) k free)) × (length result.now < 256) }
{
    let at = k * 260;
    if area[at] == 0 {
        return &area[0..0];
    }
    let start = at + 4;
    &area[start..start + wide(area[at + 2])]
}

// The room that the values of an area take.
pub fn room_of(area: &[u8; 16640]) -> usize
    ensures { (result ≡ room (slots area.now)) × (result ≤ 16320) }
{
    let mut sum = 0;
    for k in 0..64 {
        sum += slot_length(area, k);
    }
    sum
}

// The room with a value of n bytes in slot k: the old one gives back its length first.
#[tactic(auto, using(crate::proofs::RoomLaws::room_laws))]
pub fn room_with(area: &[u8; 16640], k: usize, n: usize) -> usize
    requires { (k < 64) × (n ≤ 255) }
    ensures { (x : Slot) → length (value_bytes x) ≡ n → result ≡ room (set (slots area.now) k x) }
{
    let sum = room_of(area);
    let old = slot_length(area, k);
    sum - old + n
}

// The bytes of a slot become those of a value.
#[tactic(auto, using(crate::proofs::WriteLaws::write_laws))]
fn lay(piece: &mut [u8], valuetype: u8, value: &[u8])
    requires { (length piece.old ≡ 260) × (length value.now ≤ 255) }
    ensures { piece.new ≡ laid (held valuetype value.now) }
{
    copy(&mut piece[0..4], &[1, valuetype, value.len() as u8, 0]);
    fill(&mut piece[4..260], value);
}

#[tactic(auto, using(crate::proofs::WriteLaws::write_laws))]
fn lay_at(area: &mut [u8], k: usize, valuetype: u8, value: &[u8])
    requires { (length area.old ≡ 16640) × (k < 64) × (length value.now ≤ 255) }
    ensures { area.new ≡ with_slot area.old k (held valuetype value.now) }
{
    let first = k * 260;
    lay(&mut area[first..first + 260], valuetype, value);
}

// Slot k becomes a value of a type.
#[tactic(auto, using(crate::proofs::WriteLaws::write_laws))]
pub fn write_slot(area: &mut [u8; 16640], k: usize, valuetype: u8, value: &[u8])
    requires { (k < 64) × (length value.now ≤ 255) }
    ensures area_after { area.new ≡ with_slot area.old k (held valuetype value.now) }
    ensures area_after_2 { slots area.new ≡ set (slots area.old) k (held valuetype value.now) }
    ensures area_after_3 { tidy_slots area.old ≡ true → tidy_slots area.new ≡ true }
{
    lay_at(area, k, valuetype, value);
}

// Every slot becomes free, and nothing of its value stays.
#[tactic(auto, using(crate::proofs::KeepLaws::keep_laws))]
pub fn clear(area: &mut [u8; 16640])
    ensures area_after { area.new ≡ blank 16640 }
    ensures area_after_2 { slots area.new ≡ cleared (slots area.old) }
    ensures area_after_3 { tidy_slots area.new ≡ true }
{
    wipe(area);
}

#[tactic(auto, using(crate::proofs::KeepLaws::keep_laws))]
fn sift_one(area: &mut [u8], k: usize, kept: bool)
    requires { (length area.old ≡ 16640) × (k < 64) }
    ensures { area.new ≡ cond kept area.old (with_slot area.old k free) }
{
    if !kept {
        let at = k * 260;
        wipe(&mut area[at..at + 260]);
    }
}

fn sift(area: &mut [u8], numbers: &[u8])
    requires { length area.old ≡ 16640 }
    ensures { area.new ≡ sifted numbers.now 0 64 area.old }
{
    for k in 0..64u8 {
        let kept = among_bytes(numbers, 0x80 + k);
        sift_one(area, usize::from(k), kept);
    }
}

// The temporary variables that a list has stay; the others become free, and nothing of their values stays (6.1.3.1).
#[tactic(auto, using(crate::proofs::KeepLaws::keep_laws))]
pub fn keep_listed(area: &mut [u8; 16640], numbers: &[u8])
    ensures area_after { area.new ≡ sifted numbers.now 0 64 area.old }
    ensures area_after_2 { slots area.new ≡ listed numbers.now 0x80 (slots area.old) }
    ensures area_after_3 { tidy_slots area.old ≡ true → tidy_slots area.new ≡ true }
{
    sift(area, numbers);
}

// A slot in canonical form, with a value that a card may have.
#[tactic(auto, using(crate::proofs::FineLaws::fine_laws))]
fn slot_fine(piece: &[u8]) -> bool
    requires { length piece.now ≡ 260 }
    ensures { result ≡ sound_slot piece.now }
{
    if piece[0] == 0 {
        return all_zero(piece);
    }
    piece[0] == 1 && piece[3] == 0 && piece[1] < 5 && all_zero(&piece[4 + wide(piece[2])..])
}

// An area in canonical form, with values that a card may have (number 35).
pub fn slots_fine(area: &[u8; 16640]) -> bool
    ensures { result ≡ sound_slots area.now }
{
    let (pieces, _) = area.as_chunks::<260>();
    pieces.iter().all(|piece| slot_fine(piece))
}
