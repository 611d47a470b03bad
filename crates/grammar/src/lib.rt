// The grammar of a page as tables, and a row of TLVs held against them.
#![tactic(auto)]

ghost use Rattle.std.specs.Prelude.{◌≡◌, ◌≤◌, ◌<◌, length};
ghost use Rattle.grammar.specs.Columns.{slot_of, column_of};
ghost use Rattle.rules.specs.Tlvs.{tlvs};
ghost use Rattle.rules.specs.Grammar.{cell_of, need_of, gap_of};
ghost use Rattle.rules.specs.Grammar.{beyond as Grammar·beyond, misplaced as Grammar·misplaced, met as Grammar·met, lacks as Grammar·lacks};

// Kinds of containers, as the rules number them.
pub const PAGE: usize = 1;

pub const UNIT: usize = 2;

const MODIFIER: usize = 3;

pub const ACTION: usize = 4;

pub const SYSTEM: usize = 5;

pub const SETTING: usize = 6;

pub const COMMAND: usize = 13;

pub const WHOLE: usize = 14;

// How many kinds there are, and how many columns of tags the rules tell apart.
const KINDS: usize = 15;

const WIDTH: usize = 32;

// The column of each tag up to '16' and from '40' to '4B', and 64 more where it is that of the tag with attributes too.
const COLUMNS: [u8; 35] =
    *b"\x00\x41\x02\x03\x04\x05\x06\x07\x48\x49\x4a\x0b\x0c\x0d\x4e\x4f\x10\x11\x12\x50\x0f\x53\x10\
    \x14\x15\x16\x57\x18\x59\x5a\x5b\x1c\x1d\x5e\x5f";

// For each kind a row, four kinds in a table: in hex the place of a column's part, and how often it may stand. A table is made anew
// where it is read, so each is small.
const CELLS_0: [u8; 128] =
    *b"\x00\x00\x00\x00\x00\x00\x00\x00\x00\x00\x00\x00\x00\x00\x00\x00\x00\x00\x00\x00\x00\x00\x00\x00\x00\x00\x00\x00\x00\x00\x00\x00\
    \x00\x00\x11\x20\x30\x40\x50\x60\x73\x00\x84\x00\x00\x00\x00\x00\x00\x00\x00\x00\x00\x00\x00\x00\x00\x00\x00\x00\x00\x00\x00\x00\
    \x00\x00\x00\x00\x00\x00\x00\x00\x23\x00\x00\x10\x00\x00\x00\x00\x00\x00\x00\x00\x33\x33\x33\x33\x33\x33\x33\x33\x33\x33\x33\x33\
    \x00\x00\x00\x00\x00\x00\x00\x00\x00\x24\x00\x00\x00\x00\x10\x00\x00\x00\x00\x00\x00\x00\x00\x00\x00\x00\x00\x00\x00\x00\x00\x00";

const CELLS_4: [u8; 128] =
    *b"\x00\x00\x00\x00\x00\x00\x00\x00\x00\x00\x00\x00\x11\x00\x20\x00\x00\x00\x11\x00\x11\x00\x00\x00\x00\x00\x11\x11\x00\x00\x11\x11\
    \x00\x00\x00\x00\x00\x00\x00\x00\x00\x00\x00\x00\x00\x00\x10\x00\x00\x00\x00\x00\x00\x00\x00\x00\x00\x00\x00\x00\x00\x00\x00\x00\
    \x00\x00\x00\x00\x00\x00\x00\x00\x00\x00\x00\x00\x00\x14\x14\x00\x00\x00\x00\x00\x00\x00\x00\x00\x00\x00\x00\x00\x00\x00\x00\x00\
    \x00\x00\x00\x00\x00\x00\x00\x00\x00\x00\x00\x00\x00\x00\x00\x00\x00\x00\x00\x00\x00\x00\x00\x00\x00\x00\x00\x00\x00\x00\x00\x00";

const CELLS_8: [u8; 128] =
    *b"\x00\x00\x00\x00\x00\x00\x00\x00\x00\x00\x00\x00\x00\x00\x00\x00\x00\x14\x20\x00\x00\x00\x00\x00\x00\x00\x00\x00\x00\x00\x00\x00\
    \x00\x00\x00\x00\x00\x00\x00\x00\x00\x00\x00\x00\x00\x11\x11\x00\x00\x00\x21\x00\x00\x00\x00\x00\x00\x00\x00\x00\x00\x00\x00\x00\
    \x00\x00\x00\x00\x00\x00\x00\x00\x00\x00\x00\x00\x12\x00\x00\x00\x00\x00\x00\x00\x00\x00\x00\x00\x00\x00\x00\x00\x00\x00\x00\x00\
    \x00\x00\x00\x00\x00\x00\x00\x00\x00\x00\x00\x00\x00\x10\x00\x00\x00\x00\x00\x00\x00\x00\x00\x00\x00\x00\x00\x00\x00\x00\x00\x00";

const CELLS_12: [u8; 96] =
    *b"\x00\x00\x00\x00\x00\x00\x00\x00\x00\x00\x00\x00\x00\x11\x00\x00\x00\x00\x00\x00\x00\x00\x00\x00\x00\x00\x00\x00\x00\x00\x00\x00\
    \x00\x00\x00\x00\x00\x00\x00\x00\x00\x00\x00\x00\x00\x00\x00\x00\x00\x00\x00\x00\x00\x00\x00\x00\x00\x00\x00\x00\x00\x00\x00\x00\
    \x00\x11\x00\x00\x00\x00\x00\x00\x00\x00\x00\x00\x00\x00\x00\x00\x00\x00\x00\x00\x00\x00\x00\x00\x00\x00\x00\x00\x00\x00\x00\x00";

// What each kind asks of its TLVs, two at most.
const NEEDS: [u8; 30] = *b"\x00\x00\
    \x11\x84\
    \x00\x00\
    \x24\x00\
    \x11\x00\
    \x00\x00\
    \x14\x02\
    \x00\x00\
    \x14\x00\
    \x11\x21\
    \x01\x00\
    \x00\x00\
    \x11\x00\
    \x00\x00\
    \x11\x00";

// For each column 1 where it is beyond the base in a unit, 2 in a modifier and 4 in an action, together.
const BEYONDS: [u8; 32] =
    *b"\x00\x00\x00\x00\x00\x00\x00\x00\x00\x00\x00\x00\x00\x00\x02\x00\x00\x00\x00\x00\x04\x01\x01\x00\x00\x00\x04\x05\x00\x01\x05\x05";

// The slot of a tag without attributes among the columns.
#[tactic(auto, using(crate::proofs::Tables::slot_laws))]
fn slot_of(tag: u8) -> usize
    ensures value { result ≡ slot_of tag }
    ensures upper_bound { result < 35 }
{
    match tag {
        0..=0x16 => leaf::wide(tag),
        0x40..=0x4B => leaf::wide(tag - 0x29),
        _ => 0,
    }
}

// The column of a tag: tags of which the rules say the same have the same, and unknown tags have 0.
pub fn column_of(tag: u8) -> usize
    ensures value { result ≡ column_of tag }
    ensures upper_bound { result < 32 }
{
    let i = slot_of(tag % 128);
    let c = COLUMNS[i];
    if 64 <= c {
        leaf::wide(c - 64)
    } else if tag < 0x80 {
        leaf::wide(c)
    } else {
        0
    }
}

// Where a tag stands among the parts of a kind of container.
pub fn cell_of(kind: usize, tag: u8) -> u8
    ensures { result ≡ cell_of kind tag }
{
    if KINDS <= kind {
        return 0;
    }
    let i = kind % 4 * WIDTH + column_of(tag);
    if kind < 4 {
        CELLS_0[i]
    } else if kind < 8 {
        CELLS_4[i]
    } else if kind < 12 {
        CELLS_8[i]
    } else {
        CELLS_12[i]
    }
}

// What a kind asks of its TLVs, first and second.
pub fn need_of(kind: usize, k: usize) -> u8
    ensures { result ≡ need_of kind k }
{
    if kind < KINDS && k < 2 {
        NEEDS[kind * 2 + k]
    } else {
        0
    }
}

// A tag is beyond the base in a kind of container.
pub fn beyond(kind: usize, tag: u8) -> bool
    ensures { result ≡ Grammar·beyond kind tag }
{
    let c = column_of(tag);
    let bits = BEYONDS[c];
    match kind {
        UNIT => bits % 2 == 1,
        MODIFIER => bits / 2 % 2 == 1,
        ACTION => bits / 4 == 1,
        _ => false,
    }
}

// The bytes before each TLV of a container: the numbers of '40'.
#[tactic(auto, unfolding(rules::specs::Grammar::gap_of))]
pub fn gap_of(kind: usize) -> usize
    ensures { result ≡ gap_of kind }
{
    if kind == SETTING { 1 } else { 0 }
}

// A tag that no part names, or of an earlier part than the last one, or again where one may stand.
#[tactic(auto, unfolding(rules::specs::Grammar::misplaced))]
pub fn misplaced(last: u8, cell: u8) -> bool
    ensures { result ≡ Grammar·misplaced last cell }
{
    cell == 0 || cell < last || cell == last && cell % 16 < 3
}

// The TLVs of a container have what its kind asks.
#[tactic(auto, using(crate::proofs::RowLaws::met_laws))]
pub fn met(s: &[u8], kind: usize, need: u8, from: usize, end: usize) -> bool
    requires end_in_bounds { end ≤ length s.now }
    requires from_le_end { from ≤ end }
    ensures { result ≡ Grammar·met kind need end (tlvs (gap_of kind) s.now from end) }
{
    if need == 0 {
        return true;
    }
    let gap = gap_of(kind);
    let mut at = from;
    while gap < end - at {
        let Some(tlv) = tlv::head_at(s, at + gap, end) else {
            return true;
        };
        if need == 1 || cell_of(kind, tlv.tag) == need {
            return true;
        }
        at = tlv.stop;
    }
    need == 2 && at == end
}

// A part that must stand in a container stands nowhere in it.
#[tactic(auto, using(crate::proofs::RowLaws::lacks_laws))]
pub fn lacks(s: &[u8], kind: usize, from: usize, end: usize) -> bool
    requires end_in_bounds { end ≤ length s.now }
    requires from_le_end { from ≤ end }
    ensures { result ≡ Grammar·lacks kind end (tlvs (gap_of kind) s.now from end) }
{
    !met(s, kind, need_of(kind, 0), from, end) || !met(s, kind, need_of(kind, 1), from, end)
}
