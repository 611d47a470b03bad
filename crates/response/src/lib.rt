// A terminal response, read (clause 8.7.5). Every function is total on any bytes.
#![tactic(auto)]

ghost use Rattle.std.specs.Prelude.{◌≡◌, cond, length};
ghost use Rattle.rules.specs.Tlvs.{tlvs};
ghost use Rattle.rules.specs.Card.{held};
ghost use Rattle.rules.specs.Store.{value_bytes, value_type};
ghost use Rattle.rules.specs.Command.{fills, result_in, reply, text_type, optimised};

use rules::{Reply, Tlv};

// TLVs fill the response.
#[tactic(auto, using(crate::proofs::ResponseLaws::fills_laws, tlv::proofs::Bounds::next_laws))]
fn fills(r: &[u8]) -> bool
    ensures { result ≡ fills (tlvs 0 r.now 0 (length r.now)) }
{
    let end = r.len();
    let mut at: usize = 0;
    while let Some(tlv) = tlv::head_at(r, at, end) {
        at = tlv.stop;
    }
    at == end
}

// The first Result TLV that is not empty, and the TLV after it.
#[tactic(auto, using(tlv::proofs::Bounds::next_laws, crate::proofs::ResponseLaws::result_laws))]
fn result_in(r: &[u8]) -> Option<Reply>
    ensures { result ≡ result_in r.now (tlvs 0 r.now 0 (length r.now)) }
{
    let end = r.len();
    let mut at: usize = 0;
    while let Some(tlv) = tlv::head_at(r, at, end) {
        if tlv.tag % 128 == 0x03 && tlv.start < tlv.stop {
            return Some(Reply {
                general: slice::byte_at(r, tlv.start),
                after: tlv::head_at(r, tlv.stop, end),
            });
        }
        at = tlv.stop;
    }
    None
}

// The general result of a response and the TLV after it.
#[tactic(auto, using(crate::proofs::ResponseLaws::reply_laws))]
pub fn reply_of(r: &[u8]) -> Option<Reply>
    ensures { result ≡ reply r.now }
{
    if !r.is_empty() && r.len() <= 255 && fills(r) {
        result_in(r)
    } else {
        None
    }
}

// The type that the data coding scheme of a Text String gives (clause 8.7.5.2).
#[tactic(auto, unfolding(rules::specs::Command::text_type))]
pub fn text_type(dcs: u8) -> u8
    ensures { result ≡ text_type dcs }
{
    match dcs {
        0x00 => 2,
        0x04 => 1,
        0x08 => 4,
        _ => 0,
    }
}

// The type of the TLV after the result, as an output.
#[tactic(auto, using(crate::proofs::ResponseLaws::type_laws))]
pub fn optimised_type(r: &[u8], after: Option<Tlv>) -> u8
    ensures { result ≡ value_type (optimised r.now after) }
{
    match after {
        Some(tlv) if tlv.tag % 128 == 0x0D && tlv.start < tlv.stop => text_type(slice::byte_at(
            r, tlv.start,
        )),
        _ => 0,
    }
}

// Its bytes.
#[tactic(auto, using(crate::proofs::ResponseLaws::bytes_laws))]
pub fn optimised_bytes(r: &[u8], after: Option<Tlv>) -> &[u8]
    ensures { result.now ≡ value_bytes (optimised r.now after) }
{
    let Some(tlv) = after else {
        return &r[..0];
    };
    if tlv.tag % 128 != 0x0D {
        slice::part_of(r, tlv.start, tlv.stop)
    } else if tlv.start < tlv.stop {
        slice::part_of(r, tlv.start + 1, tlv.stop)
    } else {
        &r[..0]
    }
}

// The type of what an output variable gets.
#[tactic(auto, using(crate::proofs::ResponseLaws::output_laws))]
pub fn output_type(r: &[u8], optimises: bool, after: Option<Tlv>) -> u8
    ensures { result ≡ value_type (cond optimises (optimised r.now after) (held 0 r.now)) }
{
    if optimises {
        optimised_type(r, after)
    } else {
        0
    }
}

// Its bytes.
#[tactic(auto, using(crate::proofs::ResponseLaws::output_laws))]
pub fn output_bytes(r: &[u8], required: bool, after: Option<Tlv>) -> &[u8]
    ensures { result.now ≡ value_bytes (cond required (optimised r.now after) (held 0 r.now)) }
{
    if required {
        optimised_bytes(r, after)
    } else {
        r
    }
}
