// Variables as the running page sees them (clause 6.1): what a number names, and who may read and write it.
#![tactic(auto)]

ghost use Rattle.std.specs.Prelude.{◌≡◌, cond, ◌+◌, ◌≤◌, ◌<◌, length};
ghost use Rattle.rules.specs.declared.Complaint.TheVariants.{Nothing, Undefined};
ghost use Rattle.rules.specs.Page.{service, element};
ghost use Rattle.rules.specs.Store.{area, permanently, look_for, record_from, string_of, read, value_bytes, value_type, unserved, undefined_in, rank, worse, reading, writing_in};
ghost use Rattle.records.specs.Records.{IsPlace, records};
ghost use Rattle.variable.specs.Refused.{refusal_of};
ghost use Rattle.variable.specs.View.{viewed};

use leaf::wide;
use rules::{Complaint, Refusal};

// What a byte code sees: the running page, and the areas that its variables lie in.
#[derive(Clone, Copy)]
pub struct View<'a> {
    pub page: &'a [u8],
    pub environment: &'a [u8; 16640],
    pub temporary: &'a [u8; 16640],
    pub permanent: &'a [u8; 17920],
}

// The Service ID of the page, empty where it has none (clause 7.1.6).
#[tactic(auto, using(crate::proofs::ServiceLaws::service_laws))]
pub fn service_of(page: &[u8]) -> &[u8]
    ensures { result.now ≡ service page.now }
{
    match page::service(page) {
        Some(span) => slice::part_of(page, span.from, span.end),
        None => &page[0..0],
    }
}

// The place of the record of a permanent variable.
#[tactic(auto, using(crate::proofs::ServiceLaws::permanent_laws))]
fn permanent_at(page: &[u8], perm: &[u8; 17920], n: u8) -> Option<usize>
    ensures { IsPlace result (record_from 0 (service page.now) n (records perm.now)) }
{
    records::find_record(perm, service_of(page), n)
}

#[inline(never)]
#[tactic(auto, using(crate::proofs::ServiceLaws::permanent_laws))]
fn permanent_value<'a>(page: &'a [u8], perm: &'a [u8; 17920], n: u8) -> &'a [u8]
    ensures { (result.now ≡ value_bytes (look_for (service page.now) n (records perm.now))) × (length result.now < 256) }
{
    match permanent_at(page, perm, n) {
        Some(k) => records::record_value(perm, k),
        None => &page[0..0],
    }
}

#[inline(never)]
#[tactic(auto, using(crate::proofs::ServiceLaws::permanent_laws))]
fn permanent_type(page: &[u8], perm: &[u8; 17920], n: u8) -> u8
    ensures { result ≡ value_type (look_for (service page.now) n (records perm.now)) }
{
    match permanent_at(page, perm, n) {
        Some(k) => records::record_type(perm, k),
        None => 0,
    }
}

#[inline(never)]
#[tactic(auto, using(crate::proofs::VariableLaws::string_laws))]
fn string_value(page: &[u8], n: usize) -> &[u8]
    ensures { (result.now ≡ value_bytes (string_of page.now (element page.now n))) × (length result.now ≤ length page.now) }
{
    match page::element(page, n) {
        Some(span) => slice::part_of(page, span.from, span.end),
        None => &page[0..0],
    }
}

#[inline(never)]
#[tactic(auto, using(crate::proofs::VariableLaws::string_laws))]
fn string_type(page: &[u8], n: usize) -> u8
    ensures { result ≡ value_type (string_of page.now (element page.now n)) }
{
    match page::element(page, n) {
        Some(_) => page::page_type(page),
        None => 0,
    }
}

// The bytes of a variable; none where it is undefined.
#[inline]
#[tactic(auto, using(crate::proofs::VariableLaws::value_laws))]
pub fn value_of<'a>(view: View<'a>, n: u8) -> &'a [u8]
    ensures { (result.now ≡ value_bytes (read (viewed view.entry) n)) × (length result.now ≤ 255 + length view.entry.page.now) }
{
    match n {
        0x00..=0x3F => slots::slot_value(view.environment, wide(n)),
        0x40..=0x7F => permanent_value(view.page, view.permanent, n),
        0x80..=0xBF => slots::slot_value(view.temporary, wide(n) - 0x80),
        _ => string_value(view.page, wide(n) - 0xC0),
    }
}

// The type of a variable's value; 0 where it is undefined.
#[inline]
#[tactic(auto, using(crate::proofs::VariableLaws::type_laws))]
pub fn type_of(view: View, n: u8) -> u8
    ensures { result ≡ value_type (read (viewed view.entry) n) }
{
    match n {
        0x00..=0x3F => slots::slot_type(view.environment, wide(n)),
        0x40..=0x7F => permanent_type(view.page, view.permanent, n),
        0x80..=0xBF => slots::slot_type(view.temporary, wide(n) - 0x80),
        _ => string_type(view.page, wide(n) - 0xC0),
    }
}

// A complaint about what is not there.
fn missing(held: bool) -> Complaint
    ensures { result ≡ cond held Nothing Undefined }
{
    if held {
        Complaint::Nothing
    } else {
        Complaint::Undefined
    }
}

#[inline(never)]
#[tactic(auto, using(crate::proofs::ServiceLaws::permanent_laws))]
fn permanent_reading(page: &[u8], perm: &[u8; 17920], n: u8) -> Complaint
    ensures { result ≡ worse (unserved (service page.now) permanently) (undefined_in (look_for (service page.now) n (records perm.now))) }
{
    let id = service_of(page);
    if id.is_empty() {
        Complaint::Secured
    } else {
        missing(records::find_record(perm, id, n).is_some())
    }
}

#[inline(never)]
#[tactic(auto, using(crate::proofs::VariableLaws::string_laws))]
fn string_reading(page: &[u8], n: usize) -> Complaint
    ensures { result ≡ undefined_in (string_of page.now (element page.now n)) }
{
    missing(page::element(page, n).is_some())
}

// What is wrong with a number that is read.
#[inline]
#[tactic(auto, using(crate::proofs::VariableLaws::reading_laws))]
pub fn reading(view: View, n: u8) -> Complaint
    ensures { result ≡ reading (viewed view.entry) n }
{
    match n {
        0x00..=0x3F => missing(slots::is_held(view.environment, wide(n))),
        0x40..=0x7F => permanent_reading(view.page, view.permanent, n),
        0x80..=0xBF => missing(slots::is_held(view.temporary, wide(n) - 0x80)),
        _ => string_reading(view.page, wide(n) - 0xC0),
    }
}

// A page without Service ID may not touch a permanent variable.
#[tactic(auto, using(crate::proofs::ServiceLaws::unserved_laws))]
pub fn unserved(page: &[u8], n: u8) -> Complaint
    ensures { result ≡ unserved (service page.now) (area n) }
{
    match n {
        0x40..=0x7F if service_of(page).is_empty() => Complaint::Secured,
        _ => Complaint::Nothing,
    }
}

// What is wrong with a number that is written.
#[tactic(auto, using(crate::proofs::ServiceLaws::writing_laws))]
pub fn writing(page: &[u8], n: u8) -> Complaint
    ensures { result ≡ writing_in (service page.now) (area n) }
{
    match n {
        0x00..=0x3F => Complaint::Secured,
        0x40..=0x7F => unserved(page, n),
        0x80..=0xBF => Complaint::Nothing,
        _ => Complaint::Misused,
    }
}

// The worse of two complaints.
#[tactic(auto, using(crate::proofs::ComplaintLaws::later))]
pub fn worse(a: Complaint, b: Complaint) -> Complaint
    ensures { result ≡ worse a b }
{
    a.max(b)
}

// The refusal that a complaint comes to: 16, 19 and 17.
#[tactic(auto, unfolding(crate::specs::Refused::refusal_of))]
pub fn refusal_of(c: Complaint) -> Option<Refusal>
    ensures { result ≡ refusal_of c }
{
    match c {
        Complaint::Nothing => None,
        Complaint::Undefined => Some(Refusal::Variable),
        Complaint::Secured => Some(Refusal::Security),
        Complaint::Misused => Some(Refusal::Syntax),
    }
}
