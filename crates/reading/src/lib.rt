// The host reads a variable: its value with its type, or number 17 where it is undefined or the host may not see it.
#![tactic(auto)]

ghost use Rattle.std.specs.Prelude.{◌≡◌, cond, ◌≤◌, ◌<◌, length, get_or};
ghost use Rattle.rules.specs.declared.Refusal.TheVariants.{Variable};
ghost use Rattle.rules.specs.Page.{element};
ghost use Rattle.rules.specs.Card.{Card, free, held};
ghost use Rattle.rules.specs.Store.{area, look_for, string_of, value_bytes};
ghost use Rattle.rules.specs.IsCard.{within};
ghost use Rattle.rules.specs.Calls.{shown_by, seen, hidden, display};
ghost use Rattle.slots.specs.Slots.{slots};
ghost use Rattle.records.specs.Records.{records};
ghost use Rattle.word.specs.Word.{guard_of};
ghost use Rattle.state.specs.State.{Is};
ghost use Rattle.reading.specs.Strings.{ShortStrings};

use leaf::wide;
use rules::Shown;
use state::State;

// Reference to undefined, and zeros.
#[tactic(auto, unfolding(rules::specs::Calls::hidden, rules::specs::Numbers::number))]
fn hide() -> Shown
    ensures { result ≡ hidden Variable }
{
    Shown {
        number: 17,
        valuetype: 0,
        length: 0,
        bytes: [0u8; 255],
    }
}

// A value, and zeros past it. No card has one of more than 255 bytes.
fn show(valuetype: u8, bytes: &[u8]) -> Shown
    ensures { length bytes.now ≤ 255 → result ≡ display (held valuetype bytes.now) }
{
    if 255 < bytes.len() {
        return hide();
    }
    let mut value = [0u8; 255];
    pour::fill(&mut value, bytes);
    Shown {
        number: 0,
        valuetype,
        length: bytes.len(),
        bytes: value,
    }
}

#[tactic(auto, using(crate::proofs::ShowLaws::slot_laws))]
fn show_slot(area: &[u8; 16640], k: usize) -> Shown
    requires { k < 64 }
    ensures { result ≡ display (get_or (slots area.now) k free) }
{
    if slots::is_held(area, k) {
        show(slots::slot_type(area, k), slots::slot_value(area, k))
    } else {
        hide()
    }
}

// A permanent variable, asked for by a Service ID of 1 to 16 bytes (6.1.2).
#[tactic(auto, using(crate::proofs::ShowLaws::record_laws))]
fn show_record<'a>(area: &'a [u8; 17920], number: u8, service: &'a [u8]) -> Shown
    ensures { result ≡ display (cond (within 1 16 (length service.now)) (look_for service.now number (records area.now)) free) }
{
    if service.len() < 1 || 16 < service.len() {
        return hide();
    }
    match records::find_record(area, service, number) {
        Some(k) => show(
            records::record_type(area, k),
            records::record_value(area, k),
        ),
        None => hide(),
    }
}

// A temporary variable, hidden while a password protects it (6.1.3).
#[tactic(auto, using(crate::proofs::ShowLaws::guard_laws))]
fn show_temporary<'a>(area: &'a [u8; 16640], guard: &'a [u8; 18], k: usize) -> Shown
    requires { k < 64 }
    ensures { result ≡ display (shown_by (guard_of guard.now) (get_or (slots area.now) k free)) }
{
    if word::is_marked(guard) {
        hide()
    } else {
        show_slot(area, k)
    }
}

// An element of the page's string pool, in the page's type (6.1.4).
fn show_string(page: &[u8], k: usize) -> Shown
    ensures { length (value_bytes (string_of page.now (element page.now k))) ≤ 255 → result ≡ display (string_of page.now (element page.now k)) }
{
    match page::element(page, k) {
        Some(span) => show(
            page::page_type(page),
            slice::part_of(page, span.from, span.end),
        ),
        None => hide(),
    }
}

// A variable by its number, a permanent one under a Service ID; an empty ID stands for none.
pub fn read(state: State, number: u8, service: &[u8]) -> Shown
    ensures { (c : Card) → Is state c → ShortStrings c → result ≡ display (seen (area number) c number service.now) }
{
    if number < 0x40 {
        return show_slot(&state.environment, wide(number));
    }
    if number < 0x80 {
        return show_record(&state.permanent, number, service);
    }
    if number < 0xC0 {
        return show_temporary(&state.temporary, &state.guard, wide(number) - 0x80);
    }
    show_string(state::page_of(&state.page, state.len), wide(number) - 0xC0)
}
