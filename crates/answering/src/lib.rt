// A terminal response (clauses 4.3.2 and 8.7.5): its results are stored, both or neither, and the handler's action is done.
#![tactic(auto)]

ghost use Rattle.std.specs.Prelude.{◌≡◌, true, false, ◌≤◌, length, take, Ok};
ghost use Rattle.rules.specs.Loader.{judge};
ghost use Rattle.rules.specs.Page.{service};
ghost use Rattle.rules.specs.Card.{Card, is_empty, in_hand};
ghost use Rattle.rules.specs.IsCard.{history_fine};
ghost use Rattle.rules.specs.Command.{execute_of, results};
ghost use Rattle.rules.specs.Step.{send, perform, with_results, applied, answered};
ghost use Rattle.rules.proofs.StaysCardStep.{Running};
ghost use Rattle.state.specs.State.{Is};
ghost use Rattle.moving.specs.Moved.{Bounded};
ghost use Rattle.sending.specs.Sent.{Sends};
ghost use Rattle.answering.specs.Answering.{is_retry, is_lacking, lacks_in};

use moving::Moved;
use rules::{Action, Refusal, Target, Tlv};
use state::State;
use writing::NoMemory;

// The same command again.
#[tactic(auto, unfolding(crate::specs::Answering::is_retry))]
fn is_retry(action: Action) -> bool
    ensures { result ≡ is_retry action }
{
    matches!(action, Action::Retry)
}

// The page lacks the anchor.
#[tactic(auto, unfolding(crate::specs::Answering::is_lacking))]
fn is_lacking(t: Target) -> bool
    ensures { result ≡ is_lacking t }
{
    matches!(t, Target::Lacking)
}

// A branch to an anchor of the page's own that it lacks.
#[tactic(auto, using(crate::proofs::AnswerLaws::lacks_laws), unfolding(crate::specs::Answering::lacks_in))]
fn lacks(page: &[u8], action: Action) -> bool
    ensures { result ≡ lacks_in page.now action }
{
    match action {
        Action::Pass | Action::Next | Action::Quit | Action::Back | Action::Retry => false,
        Action::Go(start, stop) => is_lacking(reference::target(
            page,
            slice::part_of(page, start, stop),
        )),
    }
}

// What the action does, with a command in hand.
fn follow(state: State, next: usize, action: Action, out: &mut [u8]) -> Moved
    requires { 255 ≤ length out.old }
    ensures { (c : Card) → Is state c → judge c.run.page ≡ Ok tt → history_fine c.history ≡ true → Bounded c.run.page action → is_empty c.run.hand ≡ false → Sends result out.old out.new (applied c (perform c next (send (in_hand c.run.hand)) action)) }
{
    if is_retry(action) {
        let hand = state.hand;
        return sending::send_out(state, word::marked_word(&hand), out);
    }
    moving::perform(state, next, action)
}

// The results of the response to an Execute USAT Command, both or neither; then the action.
fn store_results(
    mut state: State,
    tlv: Tlv,
    general: u8,
    response: &[u8],
    after: Option<Tlv>,
    action: Action,
    out: &mut [u8],
) -> Moved
    requires { (tlv.start ≤ tlv.stop) × (tlv.stop ≤ length (take state.len state.page)) × (length (service (take state.len state.page)) ≤ 16) × (255 ≤ length out.old) }
    ensures { (c : Card) → Is state c → judge c.run.page ≡ Ok tt → history_fine c.history ≡ true → Bounded c.run.page action → is_empty c.run.hand ≡ false → lacks_in c.run.page action ≡ false → Sends result out.old out.new (applied c (with_results (results c (execute_of c.run.page tlv.tag tlv.start tlv.stop) general response.now after) (perform c tlv.stop (send (in_hand c.run.hand)) action))) }
{
    let copy = state.page;
    let page = state::page_of(&copy, state.len);
    let attributes = tlv::attribute_of(page, tlv);
    let at = tlv::content_at(page, tlv);
    let mut temporary = state.temporary;
    let mut permanent = state.permanent;
    match whole::write_results(
        page,
        &mut temporary,
        &mut permanent,
        attributes,
        at,
        general,
        response,
        after,
    ) {
        Ok(()) => {
            state.temporary = temporary;
            state.permanent = permanent;
            follow(state, tlv.stop, action, out)
        }
        Err(NoMemory) => moving::fail(state, Refusal::Memory),
    }
}

// A response with its general result, and the TLV after that: 17 for the handler's branch, then 18, then the results and the action.
pub fn answer(
    state: State,
    general: u8,
    response: &[u8],
    after: Option<Tlv>,
    out: &mut [u8],
) -> Moved
    requires { (length (service (take state.len state.page)) ≤ 16) × (255 ≤ length out.old) }
    ensures { (c : Card) → Is state c → Running c → is_empty c.run.hand ≡ false → Sends result out.old out.new (answered c general response.now after) }
{
    let page = state::page_of(&state.page, state.len);
    let Some(tlv) = unit::code_at(page, state.unit, state.place) else {
        return moving::run_out(state);
    };
    let action = handler::handle(page, state.unit, general);
    if lacks(page, action) {
        return moving::fail(state, Refusal::Anchor);
    }
    store_results(state, tlv, general, response, after, action, out)
}
