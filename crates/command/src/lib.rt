// The outgoing command of an Execute USAT Command, byte for byte (clauses 8.7.3 and 8.7.4).
#![tactic(auto)]

ghost use Rattle.std.specs.Prelude.{◌≡◌, ◌+◌, ◌≤◌, length};
ghost use Rattle.rules.specs.Tlvs.{tlvs};
ghost use Rattle.rules.specs.Command.{execute_of, expanded, command};
ghost use Rattle.pour.specs.Pour.{poured};
ghost use Rattle.variable.specs.View.{viewed};
ghost use Rattle.value.specs.Into.{into};
ghost use Rattle.command.specs.Sent.{sent, details};

use rules::Tlv;
use variable::View;

// The length of a Simple TLV as it goes out.
#[tactic(auto, using(crate::proofs::SentLaws::sent_length_laws))]
fn sent_length(view: View, at: usize, tlv: Tlv) -> usize
    requires { (at ≤ tlv.start) × (tlv.start ≤ tlv.stop) × (tlv.stop ≤ length view.page.now) × (length view.page.now ≤ 4096) }
    ensures { (result ≡ length (sent (viewed view.entry) tlv.tag at tlv.start tlv.stop)) × (result ≤ 17821701) }
{
    if tlv.tag == 0 {
        let n = value::length_from(view, false, tlv.start + 1, tlv.stop);
        return build::header_size(n) + n;
    }
    tlv.stop - at
}

// The length of all Simple TLVs as they go out.
#[tactic(auto, using(crate::proofs::SentLaws::head_laws, crate::proofs::SentLaws::length_laws))]
fn expanded_length(view: View, from: usize, end: usize) -> usize
    requires { (end ≤ length view.page.now) × (length view.page.now ≤ 4096) }
    ensures { (result ≡ length (expanded (viewed view.entry) (tlvs 0 view.entry.page.now from end))) × (result ≤ 72997687296) }
{
    let mut at = from;
    let mut sum: usize = 0;
    while at < end {
        let Some(tlv) = tlv::head_at(view.page, at, end) else {
            return sum;
        };
        sum += sent_length(view, at, tlv);
        at = tlv.stop;
    }
    sum
}

// A Simple TLV as it goes out: as it stands, but an Indicator expanded.
fn send_one(view: View, at: usize, tlv: Tlv, out: &mut [u8], place: usize) -> usize
    requires { (at ≤ tlv.start) × (tlv.start ≤ tlv.stop) × (tlv.stop ≤ length view.page.now) × (length view.page.now ≤ 4096) × (place + length (sent (viewed view) tlv.tag at tlv.start tlv.stop) ≤ length out.old) }
    ensures { (result ≡ place + length (sent (viewed view.entry) tlv.tag at tlv.start tlv.stop)) × (out.new ≡ poured out.old place (sent (viewed view.entry) tlv.tag at tlv.start tlv.stop)) }
{
    if tlv.tag == 0 {
        let n = value::length_from(view, false, tlv.start + 1, tlv.stop);
        let next = build::header(out, place, slice::byte_at(view.page, tlv.start), n);
        value::join_from(view, false, tlv.start + 1, tlv.stop, out, next);
        return next + n;
    }
    build::append(out, place, slice::part_of(view.page, at, tlv.stop))
}

// All Simple TLVs as they go out.
#[tactic(auto, using(crate::proofs::SentLaws::expand_laws, crate::proofs::SentLaws::head_laws))]
fn expand(view: View, from: usize, end: usize, out: &mut [u8], place: usize)
    requires { (end ≤ length view.page.now) × (length view.page.now ≤ 4096) × (place + length (expanded (viewed view) (tlvs 0 view.page.now from end)) ≤ length out.old) }
    ensures { out.new ≡ poured out.old place (expanded (viewed view.entry) (tlvs 0 view.entry.page.now from end)) }
{
    let mut at = from;
    let mut next = place;
    while at < end {
        let Some(tlv) = tlv::head_at(view.page, at, end) else {
            return;
        };
        next = send_one(view, at, tlv, out, next);
        at = tlv.stop;
    }
}

// Command details with number 1 (House) and device identities from the UICC.
#[tactic(auto, using(crate::proofs::CommandLaws::details_put))]
fn put_details(page: &[u8], at: usize, out: &mut [u8], place: usize) -> usize
    requires { (at ≤ length page.now + 2) × (place + 9 ≤ length out.old) }
    ensures { (result ≡ place + 9) × (out.new ≡ poured out.old place (details page.now at)) }
{
    let kind = slice::byte_at(page, at);
    let qualifier = slice::byte_at(page, at + 1);
    let destination = slice::byte_at(page, at + 2);
    let head = [
        0x81,
        0x03,
        0x01,
        kind,
        qualifier,
        0x82,
        0x02,
        0x81,
        destination,
    ];
    build::append(out, place, &head)
}

// The command, put at the start of out where it has at most 255 bytes; its length.
#[tactic(auto, using(crate::proofs::CommandLaws::command_laws))]
pub fn command_into(view: View, tlv: Tlv, out: &mut [u8; 256]) -> usize
    requires { (tlv.start ≤ tlv.stop) × (tlv.stop ≤ length view.page.now) × (length view.page.now ≤ 4096) }
    ensures { (result ≡ length (command (viewed view.entry) (execute_of view.entry.page.now tlv.tag tlv.start tlv.stop))) × (out.new ≡ into out.old (command (viewed view.entry) (execute_of view.entry.page.now tlv.tag tlv.start tlv.stop))) }
{
    let at = execute::type_at(view.page, tlv);
    let body = 9 + expanded_length(view, at + 3, tlv.stop);
    let n = build::header_size(body) + body;
    if 255 < n {
        return n;
    }
    let first = build::header(out, 0, 0xD0, body);
    let next = put_details(view.page, at, out, first);
    expand(view, at + 3, tlv.stop, out, next);
    n
}
