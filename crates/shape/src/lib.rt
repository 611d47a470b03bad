// What the value of a TLV holds, by the shape of its tag.
#![tactic(auto)]

ghost use Rattle.std.specs.Prelude.{◌≡◌, ◌≤◌, length};
ghost use Rattle.rules.specs.Shape.{shape_of, kind_at, value_at, body_of};
ghost use Rattle.rules.specs.Shape.{added as Shape·added, contents as Shape·contents};

use rules::{Body, Tlv};

// What follows the fixed bytes of a value.
const DATA: usize = 1;

const SIMPLE: usize = 3;

const NUMBERED: usize = 4;

const LENGTH_VALUE: usize = 5;

const SUBSTITUTION: usize = 6;

// The Simple TLV Indicator of 8.7.3: a fixed byte, then substitution pairs.
const INDICATOR: usize = 49;

// The shape of the tags of each column, 0 where they are unknown: in octal the kind of container, what follows the fixed bytes, and
// their count.
const SHAPES: [u16; 32] = [
    0o000, 0o120, 0o010, 0o011, 0o010, 0o010, 0o010, 0o050, 0o322, 0o421, 0o220, 0o010, 0o010,
    0o010, 0o060, 0o060, 0o020, 0o1120, 0o1220, 0o010, 0o641, 0o021, 0o014, 0o720, 0o1021, 0o1320,
    0o1533, 0o022, 0o1421, 0o022, 0o020, 0o021,
];

// The shape of a tag.
pub fn shape_of(tag: u8) -> usize
    ensures { result ≡ shape_of tag }
{
    let c = grammar::column_of(tag);
    SHAPES[c] as usize
}

// The fixed bytes that the attributes of 'C6' add (8.7).
fn added(follows: usize, attribute: u8) -> usize
    ensures { result ≡ Shape·added follows attribute }
{
    if follows == SIMPLE {
        leaf::wide(attribute % 2 + attribute / 4 % 2)
    } else {
        0
    }
}

// The kind of a container whose fixed bytes begin at a place: an action with an ID below '20' is a system action.
#[tactic(auto, unfolding(rules::specs::Shape::kind_at))]
pub fn kind_at(s: &[u8], kind: usize, at: usize, stop: usize) -> usize
    requires { stop ≤ length s.now }
    ensures { result ≡ kind_at s.now kind at stop }
{
    if kind == grammar::ACTION && at < stop && s[at] < 0x20 {
        grammar::SYSTEM
    } else {
        kind
    }
}

// What stands after the fixed bytes of a value, which begin at `at`; the rest begins at `from`.
pub fn contents(s: &[u8], kind: usize, follows: usize, at: usize, from: usize, stop: usize) -> Body
    requires { stop ≤ length s.now }
    ensures { result ≡ Shape·contents s.now kind follows at from stop }
{
    if follows == DATA {
        Body::Leaf
    } else if follows == NUMBERED {
        Body::Inner(kind, at)
    } else if follows < LENGTH_VALUE {
        Body::Inner(kind_at(s, kind, at, stop), from)
    } else if tlv::pairs_fill(follows == SUBSTITUTION, s, from, stop) {
        Body::Leaf
    } else {
        Body::Short
    }
}

// What a value of some shape holds after its attributes, with so many fixed bytes.
#[tactic(auto, unfolding(rules::specs::Shape::follows_of, rules::specs::Shape::kind_of, rules::specs::Shape::value_at))]
pub fn value_at(s: &[u8], shape: usize, fixed: usize, at: usize, stop: usize) -> Body
    requires stop_in_bounds { stop ≤ length s.now }
    requires at_le_stop { at ≤ stop }
    ensures { result ≡ value_at s.now shape fixed at stop }
{
    if stop - at < fixed {
        Body::Short
    } else {
        contents(s, shape / 64, shape / 8 % 8, at, at + fixed, stop)
    }
}

// What the value of a TLV holds, by its tag and the kind of container that it stands in.
#[tactic(auto, using(crate::proofs::BodyLaws::body_laws))]
pub fn body_of(s: &[u8], within: usize, tlv: Tlv) -> Body
    requires stop_in_bounds { tlv.stop ≤ length s.now }
    requires start_le_stop { tlv.start ≤ tlv.stop }
    ensures { result ≡ body_of s.now within tlv.tag tlv.start tlv.stop }
{
    if within == grammar::COMMAND {
        return if tlv.tag == 0 {
            value_at(s, INDICATOR, 1, tlv.start, tlv.stop)
        } else {
            Body::Leaf
        };
    }
    let shape = shape_of(tlv.tag);
    if shape == 0 {
        return Body::Leaf;
    }
    match tlv::attributes_end(s, tlv) {
        None => Body::Short,
        Some(p) => {
            let fixed = shape % 8 + added(shape / 8 % 8, tlv::attribute_of(s, tlv));
            value_at(s, shape, fixed, p, tlv.stop)
        }
    }
}
