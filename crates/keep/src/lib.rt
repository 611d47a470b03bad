// What a page keeps for the next one, how it is protected, and whether the next page opens it (clause 6.1.3).
#![tactic(auto)]

ghost use Rattle.std.specs.Prelude.{◌≡◌, true, ◌≤◌, length};
ghost use Rattle.rules.specs.Page.{keep_list, password, bytes_of};
ghost use Rattle.rules.specs.Keep.{kept_by, guard_by};
ghost use Rattle.slots.specs.Slots.{slots, tidy_slots};
ghost use Rattle.word.specs.Word.{guard_of, tidy_guard};
ghost use Rattle.keep.specs.Opens.{opens};

// The keep rule of a page that ends.
#[tactic(auto, using(crate::proofs::KeepLaws::kept_laws))]
pub fn keep_temporary(temporary: &mut [u8; 16640], page: &[u8])
    ensures temporary_after { slots temporary.new ≡ kept_by page.now (keep_list page.now) (slots temporary.old) }
    ensures temporary_after_2 { tidy_slots temporary.old ≡ true → tidy_slots temporary.new ≡ true }
{
    if let Some(span) = page::keep_list(page) {
        slots::keep_listed(temporary, slice::part_of(page, span.from, span.end));
    } else if !page::keeps_all(page) {
        slots::clear(temporary);
    }
}

// The guard that a page which ends leaves. No accepted page has a password of more than 16 bytes.
#[tactic(auto, using(crate::proofs::KeepLaws::guard_laws))]
pub fn keep_guard(guard: &mut [u8; 18], page: &[u8])
    ensures guard_after { length (bytes_of page.now (password page.now)) ≤ 16 → guard_of guard.new ≡ guard_by page.now (password page.now) }
    ensures guard_after_2 { tidy_guard guard.old ≡ true → tidy_guard guard.new ≡ true }
{
    match page::password(page) {
        Some(span) => {
            let password = slice::part_of(page, span.from, span.end);
            if password.len() <= 16 {
                word::lock(guard, password);
            }
        }
        None => word::unlock(guard),
    }
}

// A page opens what is guarded: there is no guard, or its unlock equals the password.
#[tactic(auto, using(crate::proofs::KeepLaws::open_laws))]
pub fn opens(guard: &[u8; 18], page: &[u8]) -> bool
    ensures { result ≡ opens page.now (guard_of guard.now) }
{
    if !word::is_marked(guard) {
        return true;
    }
    match page::unlock(page) {
        Some(span) => leaf::same_bytes(
            word::marked_word(guard),
            slice::part_of(page, span.from, span.end),
        ),
        None => false,
    }
}
