// A unit that a branch leaves, added to the history (clause 4.6).
#![tactic(auto)]

ghost use Rattle.std.specs.Prelude.{◌≡◌, true, ◌++◌, ◌∷◌, ◌≤◌, length, take, Ok};
ghost use Rattle.rules.specs.Loader.{judge};
ghost use Rattle.rules.specs.Page.{identification};
ghost use Rattle.trail.specs.Trail.{history_of, tidy_trail};
ghost use Rattle.leaving.specs.Leaving.{entry_for, left_by};

// The page's identification; empty where there is none.
#[tactic(auto, using(crate::proofs::EntryLaws::name_laws))]
fn name_of(page: &[u8]) -> &[u8]
    ensures { result.now ≡ identification page.now }
{
    match page::identification(page) {
        Some(span) => slice::part_of(page, span.from, span.end),
        None => slice::part_of(page, 0, 0),
    }
}

#[tactic(auto, using(crate::proofs::EntryLaws::join_laws))]
fn lay(entry: &mut [u8], name: &[u8], anchor: &[u8]) -> usize
    requires { (length entry.old ≡ 65) × (length name.now ≤ 32) × (length anchor.now ≤ 32) }
    ensures { (result ≤ 65) × (take result entry.new ≡ name.now ++ 0x23 ∷ anchor.now) }
{
    let n = name.len();
    let mark = [0x23u8];
    pour::pour(entry, 0, name);
    pour::pour(entry, n, &mark);
    pour::pour(entry, n + 1, anchor);
    n + 1 + anchor.len()
}

// Page identification, '23', anchor. No accepted page has a name of more than 32 bytes.
#[tactic(auto, using(crate::proofs::EntryLaws::join_laws))]
fn join(entry: &mut [u8; 65], name: &[u8], anchor: &[u8]) -> usize
    ensures { (result ≤ 65) × (length name.now ≤ 32 → length anchor.now ≤ 32 → take result entry.new ≡ name.now ++ 0x23 ∷ anchor.now) }
{
    if 32 < name.len() || 32 < anchor.len() {
        return 0;
    }
    lay(entry, name, anchor)
}

// The entry that a unit leaves: none where it has no anchor or its flag says so.
#[tactic(auto, using(crate::proofs::EntryLaws::entry_laws))]
pub fn entry_into(entry: &mut [u8; 65], page: &[u8], unit: usize) -> usize
    ensures { (result ≤ 65) × (judge page.now ≡ Ok tt → take result entry.new ≡ entry_for page.now unit) }
{
    let Some(span) = unit::anchor(page, unit) else {
        return 0;
    };
    if unit::unrecorded(page, unit) {
        return 0;
    }
    join(
        entry,
        name_of(page),
        slice::part_of(page, span.from, span.end),
    )
}

#[tactic(auto, using(crate::proofs::EntryLaws::leave_laws))]
fn add(trail: &mut [u8; 1058], entry: &[u8])
    requires { length entry.now ≤ 65 }
    ensures trail_after { history_of trail.new ≡ left_by entry.now (history_of trail.old) }
    ensures trail_after_2 { tidy_trail trail.old ≡ true → tidy_trail trail.new ≡ true }
{
    if entry.is_empty() {
        trail::drop_above(trail);
    } else {
        trail::push(trail, entry);
    }
}

// What lies above the pointer goes, and an entry of n bytes is added where there is one.
#[tactic(auto, using(crate::proofs::EntryLaws::leave_laws))]
pub fn leave(trail: &mut [u8; 1058], entry: &[u8; 65], n: usize)
    requires { n ≤ 65 }
    ensures trail_after { history_of trail.new ≡ left_by (take n entry.now) (history_of trail.old) }
    ensures trail_after_2 { tidy_trail trail.old ≡ true → tidy_trail trail.new ≡ true }
{
    let s = &entry[..];
    add(trail, &s[..n]);
}
