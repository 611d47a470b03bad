// The history on a lent array (clauses 4.6 and 8.4).
#![tactic(auto)]

ghost use Rattle.std.specs.Prelude.{◌≡◌, true, ◌++◌, ◌+◌, ◌*◌, ◌-◌, ◌≤◌, ◌<◌, min, length, get_or, set, take, drop};
ghost use Rattle.pour.specs.Stride.{each, all};
ghost use Rattle.rules.specs.Trail.{pushed, topped, last, lowered};
ghost use Rattle.rules.specs.Reference.{mark};
ghost use Rattle.rules.specs.IsCard.{within, entry_by};
ghost use Rattle.word.specs.Word.{laid_word};
ghost use Rattle.trail.specs.Trail.{history_of, reach, laid_trail, pushed_trail, tidy_trail, sound_entry, sound_trail};

use leaf::wide;
use pour::{all_zero, copy, slide, wipe};
use reference::mark;
use word::{lay_word, word_fine, word_of};

// How many entries there are.
#[tactic(auto, using(crate::proofs::TrailLaws::trail_laws))]
pub fn entry_count(trail: &[u8; 1058]) -> usize
    ensures { (result ≡ length (history_of trail.now).entries) × (result ≤ 16) }
{
    wide(trail[0]).min(16)
}

// How many entries can still be gone back to, by the pointer.
#[tactic(auto, using(crate::proofs::TrailLaws::trail_laws))]
pub fn pointer_of(trail: &[u8; 1058]) -> usize
    ensures { (result ≡ (history_of trail.now).pointer) × (result < 256) }
{
    wide(trail[1])
}

// The entry at the pointer.
#[tactic(auto, using(crate::proofs::TrailLaws::trail_laws))]
pub fn last_entry(trail: &[u8; 1058]) -> &[u8]
    ensures { result.now ≡ last (history_of trail.now) }
{
    let k = wide(trail[1].saturating_sub(1));
    if entry_count(trail) <= k {
        return &trail[..0];
    }
    let at = 2 + k * 66;
    word_of(&trail[at..at + 66])
}

// The pointer goes down by one.
#[tactic(auto, using(crate::proofs::TrailLaws::trail_laws))]
pub fn lower(trail: &mut [u8; 1058])
    ensures trail_after { trail.new ≡ set trail.old 1 (get_or trail.old 1 0 - 1) }
    ensures trail_after_2 { history_of trail.new ≡ lowered (history_of trail.old) }
    ensures trail_after_3 { tidy_trail trail.old ≡ true → tidy_trail trail.new ≡ true }
{
    trail[1] = trail[1].saturating_sub(1);
}

// The length of what a pointer reaches of a count of entries.
fn reached(count: u8, pointer: u8) -> usize
    ensures { result ≡ min pointer (min count 16) }
{
    wide(pointer).min(wide(count)).min(16)
}

#[tactic(auto, using(crate::proofs::CutLaws::cut_laws))]
fn cut_to(s: &mut [u8], n: usize)
    requires { (length s.old ≡ 1058) × (n ≤ 16) }
    ensures { s.new ≡ laid_trail n (take (n * 66) (drop 2 s.old)) }
{
    let head = [n as u8, n as u8];
    copy(&mut s[0..2], &head);
    let at = 2 + n * 66;
    wipe(&mut s[at..1058]);
}

// The first n entries, and one more on top.
#[tactic(auto, using(crate::proofs::CutLaws::cut_laws))]
fn put_at(s: &mut [u8], n: usize, entry: &[u8])
    requires { (length s.old ≡ 1058) × (n < 16) × (length entry.now ≤ 65) }
    ensures { s.new ≡ laid_trail (n + 1) (take (n * 66) (drop 2 s.old) ++ laid_word 66 entry.now) }
{
    let m = n + 1;
    let head = [m as u8, m as u8];
    copy(&mut s[0..2], &head);
    let at = 2 + n * 66;
    lay_word(&mut s[at..at + 66], entry);
    let end = at + 66;
    wipe(&mut s[end..1058]);
}

#[tactic(auto, using(crate::proofs::CutLaws::cut_laws))]
fn push_to(s: &mut [u8], n: usize, entry: &[u8])
    requires { (length s.old ≡ 1058) × (n ≤ 16) × (length entry.now ≤ 65) }
    ensures { s.new ≡ pushed_trail n s.old entry.now }
{
    if n < 16 {
        put_at(s, n, entry);
    } else {
        slide(&mut s[2..1058], 66);
        put_at(s, 15, entry);
    }
}

// What lies above the pointer goes.
#[tactic(auto, using(crate::proofs::TrailLaws::trail_laws))]
pub fn drop_above(trail: &mut [u8; 1058])
    ensures trail_after { trail.new ≡ laid_trail (length (reach trail.old)) (take (length (reach trail.old) * 66) (drop 2 trail.old)) }
    ensures trail_after_2 { history_of trail.new ≡ topped (take (history_of trail.old).pointer (history_of trail.old).entries) }
    ensures trail_after_3 { tidy_trail trail.old ≡ true → tidy_trail trail.new ≡ true }
{
    let n = reached(trail[0], trail[1]);
    cut_to(trail, n);
}

// What lies above the pointer goes, an entry is added, the oldest of 17 goes, and the pointer is at the top.
#[tactic(auto, using(crate::proofs::TrailLaws::trail_laws))]
pub fn push(trail: &mut [u8; 1058], entry: &[u8])
    requires { length entry.now ≤ 65 }
    ensures trail_after { trail.new ≡ pushed_trail (length (reach trail.old)) trail.old entry.now }
    ensures trail_after_2 { history_of trail.new ≡ topped (pushed (take (history_of trail.old).pointer (history_of trail.old).entries) entry.now) }
    ensures trail_after_3 { tidy_trail trail.old ≡ true → tidy_trail trail.new ≡ true }
{
    let n = reached(trail[0], trail[1]);
    push_to(trail, n, entry);
}

// A name of 1 to 32 bytes.
#[tactic(auto, unfolding(rules::specs::IsCard::within))]
fn length_fine(n: usize) -> bool
    ensures { result ≡ within 1 32 n }
{
    1 <= n && n <= 32
}

// An entry is 1 to 32 bytes, '23', and 1 to 32 bytes without '23'.
#[tactic(auto, using(crate::proofs::FineLaws::split_laws, reference::proofs::Marks::place_laws))]
fn split_fine(entry: &[u8]) -> bool
    ensures { result ≡ entry_by (length entry.now) (mark entry.now) }
{
    match mark(entry) {
        Some(n) => length_fine(n) && length_fine(entry.len() - (n + 1)),
        None => false,
    }
}

#[tactic(auto, using(crate::proofs::FineLaws::fine_laws))]
fn entry_fine(piece: &[u8]) -> bool
    ensures { result ≡ sound_entry piece.now }
{
    word_fine(piece) && split_fine(word_of(piece))
}

fn entries_fine(body: &[u8], n: usize) -> bool
    requires { (length body.now ≡ 1056) × (n ≤ 16) }
    ensures { result ≡ all (each sound_entry n 66 body.now) }
{
    let used = &body[..n * 66];
    let (pieces, _) = used.as_chunks::<66>();
    pieces.iter().all(|piece| entry_fine(piece))
}

// The history in canonical form, with entries that a card may have (number 35).
#[tactic(auto, using(crate::proofs::FineLaws::fine_laws))]
pub fn history_fine(trail: &[u8; 1058]) -> bool
    ensures { result ≡ sound_trail trail.now }
{
    let n = wide(trail[0]);
    if 16 < n || n < wide(trail[1]) {
        return false;
    }
    all_zero(&trail[2 + n * 66..]) && entries_fine(&trail[2..], n)
}
