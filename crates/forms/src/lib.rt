// What each of the classes 4 to 7 asks of one TLV.
#![tactic(auto)]

ghost use Rattle.std.specs.Prelude.{◌≡◌, true, false, ◌≤◌, length};
ghost use Rattle.rules.specs.Tlvs.{count};
ghost use Rattle.rules.specs.Pieces.{pieces};
ghost use Rattle.rules.specs.Page.{page_row};
ghost use Rattle.rules.specs.Shape.{body_of};
ghost use Rattle.rules.specs.Loader.{judged_look};
ghost use Rattle.forms.specs.Sound.{Seen};
ghost use Rattle.rules.specs.Forms.{bad_reference, out_of_place, taken_in, is_marked, bad_anchor, size_of, out_of_size, long_reference, big_pool, too_big, odd_head, odd_modifier, beyond_at};
ghost use Rattle.rules.specs.Forms.{crowded as Forms·crowded, several as Forms·several, faulty as Forms·faulty};

use rules::{Body, Pair, Tlv};

// The most units of a page, modifiers in force, elements of a pool, and bytes of an element and of a name.
const UNITS: usize = 64;

const MODIFIERS: usize = 32;

const ELEMENTS: usize = 64;

const ELEMENT: usize = 255;

const NAME: usize = 32;

// Sixty-four times the least size of the value of each tag below '10', and the most; 0 where no size is asked.
const SIZES: [u8; 16] = *b"\x00\x00\x60\x51\x10\x00\x50\x00\x00\x00\x00\x60\x00\x00\x00\x00";

// Class 4: an anchor reference of some size with no '23', or that is '23' alone.
#[tactic(auto, using(crate::proofs::FormLaws::reference_laws))]
fn bad_reference(size: usize, mark: Option<usize>) -> bool
    ensures { result ≡ bad_reference size mark }
{
    mark.is_none() || size == 1
}

// Class 4: a TLV out of its place, or a bad anchor reference.
#[tactic(auto, using(crate::proofs::NameLaws::place_laws))]
fn out_of_place(s: &[u8], last: u8, cell: u8, tlv: Tlv) -> bool
    requires stop_in_bounds { tlv.stop ≤ length s.now }
    requires start_le_stop { tlv.start ≤ tlv.stop }
    ensures { result ≡ out_of_place s.now last cell tlv.tag tlv.start tlv.stop }
{
    grammar::misplaced(last, cell)
        || tlv.tag == 0x0C
            && bad_reference(
                tlv.stop - tlv.start,
                reference::mark(&s[tlv.start..tlv.stop]),
            )
}

// Class 5: a name with '23'.
#[tactic(auto, using(crate::proofs::FormLaws::marked_laws))]
fn is_marked(mark: Option<usize>) -> bool
    ensures { result ≡ is_marked mark }
{
    mark.is_some()
}

// Class 5: one of the units that end by a place has the name.
#[tactic(auto, using(crate::proofs::NameLaws::row_laws, crate::proofs::NameLaws::taken_laws))]
fn taken(s: &[u8], name: &[u8], place: usize) -> bool
    ensures { result ≡ taken_in s.now name.now place (page_row s.now) }
{
    let row = page::page_row(s);
    let end = row.end;
    let mut at = row.from;
    while let Some(tlv) = tlv::head_at(s, at, end) {
        if place < tlv.stop {
            return false;
        }
        if tlv.tag % 128 == 0x0A
            && reference::part_is(s, 0x0B, tlv::content_at(s, tlv), tlv.stop, name)
        {
            return true;
        }
        at = tlv.stop;
    }
    false
}

// Class 5: an anchor with '23', or equal to an earlier one.
#[tactic(auto, using(crate::proofs::NameLaws::anchor_laws))]
pub fn bad_anchor(s: &[u8], at: usize, tlv: Tlv) -> bool
    requires stop_in_bounds { tlv.stop ≤ length s.now }
    requires start_le_stop { tlv.start ≤ tlv.stop }
    ensures { result ≡ bad_anchor s.now at tlv.tag tlv.start tlv.stop }
{
    if tlv.tag == 0x0B {
        let name = &s[tlv.start..tlv.stop];
        is_marked(reference::mark(name)) || taken(s, name, at)
    } else {
        false
    }
}

// Class 6: the sizes that a tag asks of its value.
fn size_of(tag: u8) -> usize
    ensures { result ≡ size_of tag }
{
    if tag < 0x10 {
        let t = leaf::wide(tag);
        leaf::wide(SIZES[t])
    } else {
        0
    }
}

#[tactic(auto, unfolding(rules::specs::Forms::out_of_size))]
fn out_of_size(limit: usize, size: usize) -> bool
    ensures { result ≡ out_of_size limit size }
{
    limit != 0 && (size < limit / 64 || limit % 64 < size)
}

// Class 6: the page part or the anchor part of a reference of some size is too long.
#[tactic(auto, using(crate::proofs::FormLaws::reference_laws))]
fn long_reference(size: usize, mark: Option<usize>) -> bool
    ensures { result ≡ long_reference size mark }
{
    match mark {
        Some(n) => NAME < n || n < size && NAME < size - (n + 1),
        None => false,
    }
}

// Class 6: the string pool from a place up to an end has too many elements, or one that is too long.
#[tactic(auto, using(crate::proofs::PoolLaws::pool_laws))]
fn big_pool(s: &[u8], from: usize, end: usize) -> bool
    requires { end ≤ length s.now }
    ensures { result ≡ big_pool 0 (pieces false s.now from end) }
{
    let mut at = from;
    let mut n: usize = 0;
    while at < end {
        match tlv::pair_at(false, s, at, end) {
            Pair::Text(start, stop) => {
                if ELEMENTS <= n || ELEMENT < stop - start {
                    return true;
                }
                n += 1;
                at = stop;
            }
            Pair::Number(_, next) => at = next,
            Pair::Broken => return false,
        }
    }
    false
}

// How many of the page's TLVs have a tag, with attributes or without.
#[tactic(auto, using(crate::proofs::NameLaws::row_laws))]
fn page_count(s: &[u8], tag: u8) -> usize
    ensures { result ≡ count tag (page_row s.now) }
{
    let row = page::page_row(s);
    tlv::count_tag(s, tag, row.from, row.end)
}

// Class 6: the 65th unit, or the modifier that makes too many in force.
#[tactic(auto, using(crate::proofs::NameLaws::crowded_laws))]
fn crowded(s: &[u8], within: usize, from: usize, at: usize, tag: u8) -> bool
    requires { at ≤ length s.now }
    ensures { result ≡ Forms·crowded s.now within from at tag }
{
    match tag % 128 {
        0x0A => UNITS <= tlv::count_tag(s, 0x0A, from, at),
        0x08 => {
            let before = tlv::count_tag(s, 0x08, from, at);
            if within == grammar::UNIT {
                let own = page_count(s, 0x08);
                MODIFIERS <= own || MODIFIERS - own <= before
            } else {
                MODIFIERS <= before
            }
        }
        _ => false,
    }
}

// Class 6: a name or a count outside its sizes.
#[tactic(auto, using(crate::proofs::NameLaws::big_laws))]
fn too_big(s: &[u8], within: usize, from: usize, at: usize, tlv: Tlv) -> bool
    requires at_in_bounds { at ≤ length s.now }
    requires stop_in_bounds { tlv.stop ≤ length s.now }
    requires start_le_stop { tlv.start ≤ tlv.stop }
    ensures { result ≡ too_big s.now within from at tlv.tag tlv.start tlv.stop }
{
    let size = tlv.stop - tlv.start;
    if out_of_size(size_of(tlv.tag), size) {
        return true;
    }
    match tlv.tag {
        0x0C => long_reference(size, reference::mark(&s[tlv.start..tlv.stop])),
        0x07 => big_pool(s, tlv.start, tlv.stop),
        tag => crowded(s, within, from, at, tag),
    }
}

// Class 7: what a page reference begins with, up to its end, says that it is more than one anchor reference.
#[tactic(auto, using(crate::proofs::FormLaws::head_laws))]
fn odd_head(stop: usize, head: Option<Tlv>) -> bool
    ensures { result ≡ odd_head stop head }
{
    match head {
        Some(tlv) => {
            if tlv.tag == 0x0C {
                tlv.stop < stop
            } else {
                leaf::among_bytes(b"\x0d\x13\x93", tlv.tag)
            }
        }
        None => false,
    }
}

// Class 7: a modifier whose value holds several actions.
#[tactic(auto, using(crate::proofs::FormLaws::several_laws))]
fn several(s: &[u8], stop: usize, body: Body) -> bool
    requires { stop ≤ length s.now }
    ensures { result ≡ Forms·several s.now stop body }
{
    match body {
        Body::Inner(_, p) => 1 < tlv::count_tag(s, 0x09, p, stop),
        Body::Leaf | Body::Short => false,
    }
}

// Class 7: a modifier of another type than Replace (7.1.8.1), or with several actions.
#[tactic(auto, using(crate::proofs::FormLaws::modifier_laws))]
fn odd_modifier(s: &[u8], within: usize, tlv: Tlv) -> bool
    requires stop_in_bounds { tlv.stop ≤ length s.now }
    requires start_le_stop { tlv.start ≤ tlv.stop }
    ensures { result ≡ odd_modifier s.now within tlv.tag tlv.start tlv.stop }
{
    0 < tlv::attribute_of(s, tlv) % 4 || several(s, tlv.stop, shape::body_of(s, within, tlv))
}

// Class 7: a tag that is beyond the base where it stands, or one of these forms.
#[tactic(auto, using(crate::proofs::FormLaws::beyond_laws))]
pub fn beyond_at(s: &[u8], within: usize, tlv: Tlv) -> bool
    requires stop_in_bounds { tlv.stop ≤ length s.now }
    requires start_le_stop { tlv.start ≤ tlv.stop }
    ensures { result ≡ beyond_at s.now within tlv.tag tlv.start tlv.stop }
{
    if grammar::beyond(within, tlv.tag) {
        return true;
    }
    match tlv.tag {
        0x12 => odd_head(tlv.stop, tlv::head_at(s, tlv.start, tlv.stop)),
        0x08 | 0x88 => odd_modifier(s, within, tlv),
        _ => false,
    }
}

// What a class finds at fault in a TLV.
#[tactic(auto, unfolding(rules::specs::Forms::faulty))]
pub fn faulty(
    s: &[u8],
    class: u8,
    within: usize,
    last: u8,
    cell: u8,
    from: usize,
    at: usize,
    tlv: Tlv,
) -> bool
    requires at_in_bounds { at ≤ length s.now }
    requires stop_in_bounds { tlv.stop ≤ length s.now }
    requires start_le_stop { tlv.start ≤ tlv.stop }
    ensures { result ≡ Forms·faulty s.now class within last cell from at tlv.tag tlv.start tlv.stop }
{
    match class {
        4 => out_of_place(s, last, cell, tlv),
        5 => bad_anchor(s, at, tlv),
        6 => too_big(s, within, from, at, tlv),
        7 => beyond_at(s, within, tlv),
        _ => false,
    }
}

// No class from 4 on finds a fault in a TLV, but for a bad anchor or one too many.
#[tactic(auto, using(crate::proofs::SoundLaws::sound_laws))]
pub fn is_sound(s: &[u8], within: usize, last: u8, cell: u8, at: usize, tlv: Tlv) -> bool
    requires stop_in_bounds { tlv.stop ≤ length s.now }
    requires start_le_stop { tlv.start ≤ tlv.stop }
    ensures { result ≡ true → Seen s.now within last cell at tlv.tag tlv.start tlv.stop (judged_look (body_of s.now within tlv.tag tlv.start tlv.stop)) }
{
    let size = tlv.stop - tlv.start;
    if out_of_place(s, last, cell, tlv)
        || beyond_at(s, within, tlv)
        || out_of_size(size_of(tlv.tag), size)
    {
        return false;
    }
    match tlv.tag {
        0x0C => !long_reference(size, reference::mark(&s[tlv.start..tlv.stop])),
        0x07 => !big_pool(s, tlv.start, tlv.stop),
        _ => true,
    }
}
