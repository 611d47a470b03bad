// Where a byte code leads: on in its unit, to a unit of its page, to another page, back, or to the page's end (clauses 4.6, 8.4 and 12).
#![tactic(auto)]

ghost use Rattle.std.specs.Prelude.{◌≡◌, true, ◌≤◌, length, set, take, Ok};
ghost use Rattle.rules.specs.declared.Outcome.TheVariants.{On, Ended};
ghost use Rattle.rules.specs.Numbers.{code};
ghost use Rattle.rules.specs.Bytes.{part};
ghost use Rattle.rules.specs.Loader.{judge};
ghost use Rattle.rules.specs.Reference.{target};
ghost use Rattle.rules.specs.Card.{Card, held};
ghost use Rattle.rules.specs.Keep.{rested};
ghost use Rattle.rules.specs.IsCard.{history_fine};
ghost use Rattle.rules.specs.Step.{effect, entered, wanting, moved, onwards, jump, away, back, finish, refuses, applied, branch, perform};
ghost use Rattle.slots.specs.Slots.{slots, tidy_slots};
ghost use Rattle.word.specs.Word.{word_in, tidy_wanted};
ghost use Rattle.state.specs.State.{Is};
ghost use Rattle.moving.specs.Moved.{Comes, Bounded, code_by};

use rules::{Action, Outcome, Refusal, Target};
use state::State;

// A state, and what brought it there.
#[derive(Clone, Copy)]
pub struct Moved {
    pub state: State,
    pub outcome: Outcome,
}

// The second byte of a refusal's code, where it has one (12.3).
#[tactic(auto, using(crate::proofs::MoveLaws::low_as), unfolding(crate::specs::Moved::code_by, rules::specs::Numbers::code, rules::specs::Bytes::hex, rules::specs::Bytes::hex_to))]
fn code_low(why: Refusal) -> Option<u8>
    ensures { code why ≡ code_by result }
{
    match why {
        Refusal::Syntax => Some(1),
        Refusal::Variable => Some(5),
        Refusal::Anchor => Some(2),
        Refusal::Memory => Some(3),
        Refusal::Security => Some(4),
        Refusal::Disallowed => Some(10),
        Refusal::Buffer | Refusal::Call | Refusal::Response | Refusal::State => None,
    }
}

// Variable '05' becomes the code of a refusal.
#[tactic(auto, using(crate::proofs::MoveLaws::note_laws))]
pub fn note_refusal(environment: &mut [u8; 16640], why: Refusal)
    ensures environment_after { slots environment.new ≡ set (slots environment.old) 5 (held 3 (code why)) }
    ensures environment_after_2 { tidy_slots environment.old ≡ true → tidy_slots environment.new ≡ true }
{
    match code_low(why) {
        Some(low) => slots::write_slot(environment, 5, 3, &[0x6F, low]),
        None => slots::write_slot(environment, 5, 3, &[]),
    }
}

// A refused byte code: '05', the keep rule, and no page runs.
pub fn fail(mut state: State, why: Refusal) -> Moved
    ensures { (c : Card) → Is state c → judge c.run.page ≡ Ok tt → Comes result (applied c (refuses why)) }
{
    note_refusal(&mut state.environment, why);
    Moved {
        state: state::rest(state),
        outcome: Outcome::Refused(why),
    }
}

// The page ends at a unit's end.
pub fn run_out(state: State) -> Moved
    ensures { (c : Card) → Is state c → judge c.run.page ≡ Ok tt → Comes result (effect Ended (rested c)) }
{
    Moved {
        state: state::rest(state),
        outcome: Outcome::Ended,
    }
}

// On at a place of the unit.
pub fn go_on(mut state: State, place: usize) -> Moved
    ensures { (c : Card) → Is state c → Comes result (moved c (onwards place)) }
{
    state::note(&mut state.environment, 0, 0);
    word::let_go(&mut state.hand);
    state.place = place;
    Moved {
        state,
        outcome: Outcome::On,
    }
}

// The page ends after its last byte code.
pub fn end(mut state: State) -> Moved
    ensures { (c : Card) → Is state c → judge c.run.page ≡ Ok tt → Comes result (moved c finish) }
{
    state::note(&mut state.environment, 0, 0);
    Moved {
        state: state::rest(state),
        outcome: Outcome::Ended,
    }
}

// To a unit, at its first byte code.
fn enter(mut state: State, k: usize) -> Moved
    ensures { (c : Card) → Is state c → Comes result (effect On (entered c k)) }
{
    let place = unit::entry_of(state::page_of(&state.page, state.len), k);
    word::let_go(&mut state.hand);
    state.unit = k;
    state.place = place;
    Moved {
        state,
        outcome: Outcome::On,
    }
}

// A branch to a unit of the page.
pub fn jump_to(mut state: State, k: usize) -> Moved
    ensures { (c : Card) → Is state c → judge c.run.page ≡ Ok tt → Comes result (moved c (jump k)) }
{
    state::note(&mut state.environment, 0, 0);
    let mut entry = [0u8; 65];
    let n = leaving::entry_into(
        &mut entry,
        state::page_of(&state.page, state.len),
        state.unit,
    );
    leaving::leave(&mut state.trail, &entry, n);
    enter(state, k)
}

// A reference to keep for the host. No accepted page and no history has one of more than 65 bytes.
#[tactic(auto, using(crate::proofs::MoveLaws::want_laws))]
pub fn want(wanted: &mut [u8; 66], reference: &[u8])
    ensures wanted_after { length reference.now ≤ 65 → word_in wanted.new ≡ reference.now }
    ensures wanted_after_2 { tidy_wanted wanted.old ≡ true → tidy_wanted wanted.new ≡ true }
{
    if 65 < reference.len() {
        return;
    }
    word::want(wanted, reference);
}

// Another page is wanted.
fn fetch(mut state: State, reference: &[u8]) -> Moved
    ensures { (c : Card) → Is state c → judge c.run.page ≡ Ok tt → length reference.now ≤ 65 → Comes result (wanting c reference.now) }
{
    want(&mut state.wanted, reference);
    Moved {
        state: state::rest(state),
        outcome: Outcome::Page,
    }
}

// A branch to another page.
fn go_away(mut state: State, reference: &[u8]) -> Moved
    ensures { (c : Card) → Is state c → judge c.run.page ≡ Ok tt → length reference.now ≤ 65 → Comes result (moved c (away reference.now)) }
{
    state::note(&mut state.environment, 0, 0);
    let mut entry = [0u8; 65];
    let n = leaving::entry_into(
        &mut entry,
        state::page_of(&state.page, state.len),
        state.unit,
    );
    leaving::leave(&mut state.trail, &entry, n);
    fetch(state, reference)
}

// Back to the entry at the pointer; the page ends where there is nothing to return to (8.4).
pub fn go_back(mut state: State) -> Moved
    ensures { (c : Card) → Is state c → judge c.run.page ≡ Ok tt → history_fine c.history ≡ true → Comes result (moved c back) }
{
    state::note(&mut state.environment, 0, 0);
    if trail::pointer_of(&state.trail) == 0 {
        return run_out(state);
    }
    let before = state.trail;
    let entry = trail::last_entry(&before);
    trail::lower(&mut state.trail);
    match reference::target(state::page_of(&state.page, state.len), entry) {
        Target::Unit(k) => enter(state, k),
        Target::Lacking | Target::Other => fetch(state, entry),
    }
}

// What the reference that stands in the page from a place up to another means there.
#[tactic(auto, using(crate::proofs::MoveLaws::target_at_is))]
fn target_at(page: &[u8; 4096], len: usize, start: usize, stop: usize) -> Target
    ensures { result ≡ target (take len page.now) (part (take len page.now) start stop) }
{
    let s = state::page_of(page, len);
    reference::target(s, slice::part_of(s, start, stop))
}

// A branch to another page, by the reference from a place up to another.
fn depart(state: State, start: usize, stop: usize) -> Moved
    ensures { (c : Card) → Is state c → judge c.run.page ≡ Ok tt → length (part c.run.page start stop) ≤ 65 → Comes result (moved c (away (part c.run.page start stop))) }
{
    let page = state.page;
    let reference = slice::part_of(state::page_of(&page, state.len), start, stop);
    go_away(state, reference)
}

// A branch by the reference that stands in the page from a place up to another.
pub fn branch_to(state: State, start: usize, stop: usize) -> Moved
    ensures { (c : Card) → Is state c → judge c.run.page ≡ Ok tt → length (part c.run.page start stop) ≤ 65 → Comes result (applied c (branch c (part c.run.page start stop))) }
{
    match target_at(&state.page, state.len, start, stop) {
        Target::Unit(k) => jump_to(state, k),
        Target::Lacking => fail(state, Refusal::Anchor),
        Target::Other => depart(state, start, stop),
    }
}

// What the handler's action does; a retry with no command in hand ends the page.
pub fn perform(state: State, next: usize, action: Action) -> Moved
    ensures { (c : Card) → Is state c → judge c.run.page ≡ Ok tt → history_fine c.history ≡ true → Bounded c.run.page action → Comes result (applied c (perform c next finish action)) }
{
    match action {
        Action::Pass | Action::Quit | Action::Retry => end(state),
        Action::Next => go_on(state, next),
        Action::Back => go_back(state),
        Action::Go(start, stop) => branch_to(state, start, stop),
    }
}
