// The test of number 35: that a state is a card.
#![tactic(auto)]

ghost use Rattle.std.specs.Prelude.{◌≡◌};
ghost use Rattle.rules.specs.Page.{code_at};
ghost use Rattle.rules.specs.Loader.{judge};
ghost use Rattle.rules.specs.IsCard.{is_accepted, complaint_free, wanted_fine, is_card};
ghost use Rattle.word.specs.Word.{word_in, hand_of};
ghost use Rattle.state.specs.State.{tidy_page, card_of};
ghost use Rattle.sound.specs.Sound.{sound_areas, sound_words, sound_rest, sound_place, sends_in, sound_hand, sound_run};

use rules::Complaint;
use state::State;

// Zeros follow the page.
#[tactic(auto, using(crate::proofs::PartLaws::page_laws))]
fn page_fine(page: &[u8; 4096], len: usize) -> bool
    ensures { result ≡ tidy_page page.now len }
{
    len <= 4096 && pour::all_zero(&page[len..])
}

// The areas hold what a card may; the temporary values and the permanent ones each take 2,048 bytes at most.
#[tactic(auto, using(leaf::proofs::Cases::cases), unfolding(crate::specs::Sound::sound_areas))]
fn areas_fine<'a>(
    environment: &'a [u8; 16640],
    temporary: &'a [u8; 16640],
    permanent: &'a [u8; 17920],
) -> bool
    ensures { result ≡ sound_areas environment.now temporary.now permanent.now }
{
    slots::slots_fine(environment)
        && slots::slots_fine(temporary)
        && slots::room_of(temporary) <= 2048
        && records::records_fine(permanent)
        && records::record_room(permanent) <= 2048
}

// Zeros follow the guard's password, the command in hand and the reference wanted.
#[tactic(auto, using(leaf::proofs::Cases::cases), unfolding(crate::specs::Sound::sound_words, word::specs::Word::tidy_guard, word::specs::Word::tidy_hand, word::specs::Word::tidy_wanted))]
fn words_fine<'a>(guard: &'a [u8; 18], hand: &'a [u8; 257], wanted: &'a [u8; 66]) -> bool
    ensures { result ≡ sound_words guard.now hand.now wanted.now }
{
    word::marked_fine(guard) && word::marked_fine(hand) && word::word_fine(wanted)
}

// A reference has two bytes at least; the array has no room for more than 65.
#[tactic(auto, using(crate::proofs::RunLaws::wanted_laws))]
fn wanted_fine(wanted: &[u8; 66]) -> bool
    ensures { result ≡ wanted_fine (word_in wanted.now) }
{
    word::word_of(wanted).len() != 1
}

// At rest nothing of a run is left.
#[tactic(auto, using(leaf::proofs::Cases::cases), unfolding(crate::specs::Sound::sound_rest, word::specs::Word::hand_of, rules::specs::Card::is_empty))]
fn rest_fine<'a>(hand: &'a [u8; 257], wanted: &'a [u8; 66], unit: usize, place: usize) -> bool
    ensures { result ≡ sound_rest hand.now wanted.now unit place }
{
    unit == 0 && place == 0 && !word::is_marked(hand) && wanted_fine(wanted)
}

// The loader accepts the page, and the place is one of a unit.
#[tactic(auto, using(leaf::proofs::Cases::cases), unfolding(crate::specs::Sound::sound_place, rules::specs::IsCard::is_accepted))]
fn place_fine(page: &[u8], unit: usize, place: usize) -> bool
    ensures { result ≡ sound_place page.now unit place }
{
    loader::judge(page).is_ok()
        && unit < unit::unit_count(page)
        && unit::is_place(page, unit, place)
}

// The byte code at the place sends a command, and its result variables are the page's to write.
#[tactic(auto, using(leaf::proofs::Cases::cases, crate::proofs::RunLaws::sends_start, crate::proofs::RunLaws::sends_stop), unfolding(crate::specs::Sound::sends_in, rules::specs::Tlvs::plain, rules::specs::IsCard::complaint_free))]
fn sends(page: &[u8], unit: usize, place: usize) -> bool
    ensures { result ≡ sends_in page.now (code_at page.now unit place) }
{
    match unit::code_at(page, unit, place) {
        Some(tlv) => tlv.tag % 128 == 0x46 && execute::result_told(page, tlv) == Complaint::Nothing,
        None => false,
    }
}

// A command in hand has one byte at least; the array has no room for more than 255.
#[tactic(auto, using(crate::proofs::RunLaws::hand_laws))]
fn hand_fine<'a>(page: &'a [u8], hand: &'a [u8; 257], unit: usize, place: usize) -> bool
    ensures { result ≡ sound_hand page.now unit place (hand_of hand.now) }
{
    !word::is_marked(hand) || !word::marked_word(hand).is_empty() && sends(page, unit, place)
}

// While a page runs there is no guard, and no page is wanted.
#[tactic(auto, using(crate::proofs::RunLaws::run_laws))]
fn run_fine<'a>(
    page: &'a [u8],
    guard: &'a [u8; 18],
    hand: &'a [u8; 257],
    wanted: &'a [u8; 66],
    unit: usize,
    place: usize,
) -> bool
    ensures { result ≡ sound_run page.now guard.now hand.now wanted.now unit place }
{
    if page.is_empty() {
        return rest_fine(hand, wanted, unit, place);
    }
    !word::is_marked(guard)
        && word::word_of(wanted).is_empty()
        && place_fine(page, unit, place)
        && hand_fine(page, hand, unit, place)
}

// The state is a card: in canonical form (House), each part one that a card may have.
#[tactic(auto, using(crate::proofs::CardLaws::sound_laws))]
pub fn is_sound(state: State) -> bool
    ensures { result ≡ is_card (card_of state) }
{
    page_fine(&state.page, state.len)
        && areas_fine(&state.environment, &state.temporary, &state.permanent)
        && trail::history_fine(&state.trail)
        && words_fine(&state.guard, &state.hand, &state.wanted)
        && run_fine(
            state::page_of(&state.page, state.len),
            &state.guard,
            &state.hand,
            &state.wanted,
            state.unit,
            state.place,
        )
}
