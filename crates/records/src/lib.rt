// The permanent area on lent arrays (clause 6.1.2): a record is known by its number and its Service ID together.
#![tactic(auto)]

ghost use Rattle.std.specs.Prelude.{◌≡◌, true, false, cond, ◌+◌, ◌*◌, ◌≤◌, ◌<◌, length, get_or, set, drop, ltb};
ghost use Rattle.rules.specs.Card.{Record, none, stored};
ghost use Rattle.rules.specs.Store.{is_record, record_from, free_from, place_for, value_of, value_bytes, value_type, record_room};
ghost use Rattle.rules.specs.IsCard.{within, repeats};
ghost use Rattle.pour.specs.Stride.{each, all};
ghost use Rattle.records.specs.Records.{IsPlace, record_in, records, laid, with_record, tidy_fields, tidy_records, sound_record, sound_records, distinct};

use leaf::{same_bytes, wide};
use pour::{all_zero, copy, fill};

// A record has a Service ID and a number.
#[tactic(auto, using(crate::proofs::FindLaws::find_laws))]
fn is_record<'a>(piece: &'a [u8], id: &'a [u8], number: u8) -> bool
    requires { length piece.now ≡ 280 }
    ensures { result ≡ is_record id.now number (record_in piece.now) }
{
    piece[0] != 0 && piece[1] == number && same_bytes(&piece[8..8 + wide(piece[2])], id)
}

// The place of a record, from a place on.
#[tactic(auto, using(crate::proofs::FindLaws::find_laws))]
fn find_from<'a>(s: &'a [u8], from: usize, id: &'a [u8], number: u8) -> Option<usize>
    requires { (length s.now ≡ 17920) × (from ≤ 64) }
    ensures { IsPlace result (record_from from id.now number (drop from (records s.now))) }
{
    for k in from..64 {
        let at = k * 280;
        if is_record(&s[at..at + 280], id, number) {
            return Some(k);
        }
    }
    None
}

// The place of a record.
pub fn find_record<'a>(area: &'a [u8; 17920], id: &'a [u8], number: u8) -> Option<usize>
    ensures { IsPlace result (record_from 0 id.now number (records area.now)) }
{
    find_from(area, 0, id, number)
}

// The first free place.
#[tactic(auto, using(crate::proofs::FindLaws::find_laws))]
pub fn free_record(area: &[u8; 17920]) -> Option<usize>
    ensures { IsPlace result (free_from 0 (records area.now)) }
{
    for k in 0..64 {
        if area[k * 280] == 0 {
            return Some(k);
        }
    }
    None
}

// Where a record is to be written: its own place, or the first free one; none where there is no room for it.
#[tactic(auto, using(crate::proofs::FindLaws::find_laws))]
pub fn place_for<'a>(area: &'a [u8; 17920], id: &'a [u8], number: u8) -> Option<usize>
    ensures { IsPlace result (place_for id.now number (records area.now)) }
{
    find_record(area, id, number).or_else(|| free_record(area))
}

// The type of the value of record k.
#[tactic(auto, using(crate::proofs::RecordLaws::record_laws))]
pub fn record_type(area: &[u8; 17920], k: usize) -> u8
    requires { k < 64 }
    ensures { result ≡ value_type (value_of (get_or (records area.now) k none)) }
{
    let head = k * 280;
    if area[head] == 0 { 0 } else { area[head + 3] }
}

// The bytes of the value of record k.
#[tactic(auto, using(crate::proofs::RecordLaws::record_laws))]
pub fn record_value(area: &[u8; 17920], k: usize) -> &[u8]
    requires { k < 64 }
    ensures { (result.now ≡ value_bytes (value_of (get_or (records area.now) k none))) × (length result.now < 256) }
{
    let at = k * 280;
    if area[at] == 0 {
        return &area[0..0];
    }
    let start = at + 24;
    &area[start..start + wide(area[at + 4])]
}

// The length of the value of record k.
#[tactic(auto, using(crate::proofs::RecordLaws::record_laws))]
pub fn record_length(area: &[u8; 17920], k: usize) -> usize
    requires { k < 64 }
    ensures { (result ≡ length (value_bytes (value_of (get_or (records area.now) k none)))) × (result < 256) }
{
    record_value(area, k).len()
}

// The room that the values of all records take.
pub fn record_room(area: &[u8; 17920]) -> usize
    ensures { (result ≡ record_room (records area.now)) × (result ≤ 16320) }
{
    let mut sum = 0;
    for k in 0..64 {
        sum += record_length(area, k);
    }
    sum
}

// The room with a value of n bytes in record k: the old one gives back its length first.
#[tactic(auto, using(crate::proofs::RoomLaws::room_laws))]
pub fn record_room_with(area: &[u8; 17920], k: usize, n: usize) -> usize
    requires { (k < 64) × (n ≤ 255) }
    ensures { (x : Record) → length (value_bytes (value_of x)) ≡ n → result ≡ record_room (set (records area.now) k x) }
{
    let sum = record_room(area);
    let old = record_length(area, k);
    sum - old + n
}

// The bytes of a record become those of an ID, a number and a value.
#[tactic(auto, using(crate::proofs::WriteLaws::write_laws))]
fn lay(piece: &mut [u8], number: u8, id: &[u8], valuetype: u8, value: &[u8])
    requires { (length piece.old ≡ 280) × (length id.now ≤ 16) × (length value.now ≤ 255) }
    ensures { piece.new ≡ laid (stored id.now number valuetype value.now) }
{
    let head = [
        1,
        number,
        id.len() as u8,
        valuetype,
        value.len() as u8,
        0,
        0,
        0,
    ];
    copy(&mut piece[0..8], &head);
    fill(&mut piece[8..24], id);
    fill(&mut piece[24..280], value);
}

#[tactic(auto, using(crate::proofs::WriteLaws::write_laws))]
fn lay_at(area: &mut [u8], k: usize, number: u8, id: &[u8], valuetype: u8, value: &[u8])
    requires { (length area.old ≡ 17920) × (k < 64) × (length id.now ≤ 16) × (length value.now ≤ 255) }
    ensures { area.new ≡ with_record area.old k (stored id.now number valuetype value.now) }
{
    let first = k * 280;
    lay(&mut area[first..first + 280], number, id, valuetype, value);
}

// Record k becomes a value of a type under an ID and a number.
#[tactic(auto, using(crate::proofs::WriteLaws::write_laws))]
pub fn write_record(
    area: &mut [u8; 17920],
    k: usize,
    number: u8,
    id: &[u8],
    valuetype: u8,
    value: &[u8],
)
    requires { (k < 64) × (length id.now ≤ 16) × (length value.now ≤ 255) }
    ensures area_after { area.new ≡ with_record area.old k (stored id.now number valuetype value.now) }
    ensures area_after_2 { records area.new ≡ set (records area.old) k (stored id.now number valuetype value.now) }
    ensures area_after_3 { tidy_records area.old ≡ true → tidy_records area.new ≡ true }
{
    lay_at(area, k, number, id, valuetype, value);
}

// A number of the area, an ID of 1 to 16 bytes, and a type that there is.
#[tactic(auto, using(leaf::proofs::Cases::cases), unfolding(rules::specs::IsCard::within))]
fn fields_fine(number: u8, size: u8, valuetype: u8) -> bool
    ensures { result ≡ cond (within 0x40 0x7F number) (cond (within 1 16 size) (ltb valuetype 5) false) false }
{
    0x40 <= number && number <= 0x7F && 1 <= size && size <= 16 && valuetype < 5
}

// Zeros in the spare bytes, past the ID and past the value.
#[tactic(auto, using(crate::proofs::FineLaws::fine_laws))]
fn fields_tidy(piece: &[u8]) -> bool
    requires { length piece.now ≡ 280 }
    ensures { result ≡ tidy_fields piece.now }
{
    let n = wide(piece[2]);
    let m = wide(piece[4]);
    n <= 16
        && all_zero(&piece[5..8])
        && all_zero(&piece[8 + n..24])
        && all_zero(&piece[24 + m..280])
}

// A record in canonical form, with contents that a card may have.
#[tactic(auto, using(crate::proofs::FineLaws::fine_laws))]
fn record_fine(piece: &[u8]) -> bool
    requires { length piece.now ≡ 280 }
    ensures { result ≡ sound_record piece.now }
{
    if piece[0] == 0 {
        return all_zero(piece);
    }
    piece[0] == 1 && fields_fine(piece[1], piece[2], piece[3]) && fields_tidy(piece)
}

fn each_fine(s: &[u8]) -> bool
    requires { length s.now ≡ 17920 }
    ensures { result ≡ all (each sound_record 64 280 s.now) }
{
    let (pieces, _) = s.as_chunks::<280>();
    pieces.iter().all(|piece| record_fine(piece))
}

// Record k stands once more behind itself.
#[tactic(auto, using(crate::proofs::RepeatLaws::repeat_laws))]
fn repeated(s: &[u8], k: usize) -> bool
    requires { (length s.now ≡ 17920) × (k < 64) }
    ensures { result ≡ repeats (get_or (records s.now) k none) (drop (k + 1) (records s.now)) }
{
    let at = k * 280;
    if s[at] == 0 {
        return false;
    }
    let begin = at + 8;
    let end = begin + wide(s[at + 2]);
    find_from(s, k + 1, &s[begin..end], s[at + 1]).is_some()
}

#[tactic(auto, using(crate::proofs::RepeatLaws::repeat_laws))]
fn all_distinct(s: &[u8]) -> bool
    requires { length s.now ≡ 17920 }
    ensures { result ≡ distinct (records s.now) }
{
    for k in 0..64 {
        if repeated(s, k) {
            return false;
        }
    }
    true
}

// The permanent area in canonical form, with records that a card may have, none of them twice (number 35).
#[tactic(auto, using(crate::proofs::RepeatLaws::repeat_laws))]
pub fn records_fine(area: &[u8; 17920]) -> bool
    ensures { result ≡ sound_records area.now }
{
    each_fine(area) && all_distinct(area)
}
