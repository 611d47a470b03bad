// The state of a card in arrays and numbers, and the card that it is.
#![tactic(auto)]

ghost use Rattle.std.specs.Prelude.{◌≡◌, ◌∷◌, [], ◌≤◌, length, take, set, true};
ghost use Rattle.rules.specs.Card.{Card, created, held};
ghost use Rattle.rules.specs.Page.{bytes_of, password};
ghost use Rattle.rules.specs.Keep.{rested};
ghost use Rattle.pour.specs.Pour.{blank};
ghost use Rattle.slots.specs.Slots.{slots, tidy_slots};
ghost use Rattle.state.specs.State.{Is};

// The running page and its length, the areas, the history, the guard's password, the command in hand, the reference wanted, and the place in the page.
#[derive(Clone, Copy)]
pub struct State {
    pub page: [u8; 4096],
    pub len: usize,
    pub environment: [u8; 16640],
    pub temporary: [u8; 16640],
    pub permanent: [u8; 17920],
    pub trail: [u8; 1058],
    pub guard: [u8; 18],
    pub hand: [u8; 257],
    pub wanted: [u8; 66],
    pub unit: usize,
    pub place: usize,
}

#[tactic(auto, using(crate::proofs::PageLaws::page_laws))]
fn front(s: &[u8], n: usize) -> &[u8]
    requires { length s.now ≡ 4096 }
    ensures { (result.now ≡ take n s.now) × (length result.now ≤ 4096) }
{
    if 4096 < n {
        return s;
    }
    &s[..n]
}

// The page that runs: as many bytes as its length says.
pub fn page_of(page: &[u8; 4096], len: usize) -> &[u8]
    ensures { (result.now ≡ take len page.now) × (length result.now ≤ 4096) }
{
    front(page, len)
}

// A new card at rest.
#[tactic(auto, using(crate::proofs::CreateLaws::created_is))]
pub fn create() -> State
    ensures { Is result created }
{
    State {
        page: [0u8; 4096],
        len: 0,
        environment: [0u8; 16640],
        temporary: [0u8; 16640],
        permanent: [0u8; 17920],
        trail: [0u8; 1058],
        guard: [0u8; 18],
        hand: [0u8; 257],
        wanted: [0u8; 66],
        unit: 0,
        place: 0,
    }
}

// Variable '05' becomes the code of the last byte code, in binary (12.1).
pub fn note(environment: &mut [u8; 16640], high: u8, low: u8)
    ensures environment_after { slots environment.new ≡ set (slots environment.old) 5 (held 3 (high ∷ low ∷ [])) }
    ensures environment_after_2 { tidy_slots environment.old ≡ true → tidy_slots environment.new ≡ true }
{
    let code = [high, low];
    slots::write_slot(environment, 5, 3, &code);
}

#[tactic(auto, using(word::proofs::WordLaws::blank_at))]
fn wipe_page(page: &mut [u8; 4096])
    ensures { page.new ≡ blank 4096 }
{
    pour::wipe(page);
}

// The page ends: the keep rule, and no page runs.
pub fn rest(mut state: State) -> State
    ensures { (c : Card) → Is state c → length (bytes_of c.run.page (password c.run.page)) ≤ 16 → Is result (rested c) }
{
    let copy = state.page;
    let page = page_of(&copy, state.len);
    keep::keep_temporary(&mut state.temporary, page);
    keep::keep_guard(&mut state.guard, page);
    word::let_go(&mut state.hand);
    wipe_page(&mut state.page);
    state.len = 0;
    state.unit = 0;
    state.place = 0;
    state
}
