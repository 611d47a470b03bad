// Short texts in lent arrays: the guard's password, the command in hand, the reference of the page wanted.
#![tactic(auto)]

ghost use Rattle.std.specs.Prelude.{◌≡◌, ◌+◌, ◌<◌, ◌≤◌, length, drop};
ghost use Rattle.pour.specs.Pour.{blank};
ghost use Rattle.word.specs.Word.{word_in, laid_word, tidy_word, laid_marked, tidy_marked, is_marked};

use leaf::wide;
use pour::{all_zero, fill, wipe};

// The text of a slice: its first byte is the text's length.
#[tactic(auto, using(crate::proofs::WordLaws::word_laws), unfolding(crate::specs::Word::word_in))]
pub fn word_of(p: &[u8]) -> &[u8]
    ensures { result.now ≡ word_in p.now }
{
    if p.is_empty() {
        return p;
    }
    let end = p.len().min(1 + wide(p[0]));
    &p[1..end]
}

// A slice becomes a text's length, the text and zeros.
#[tactic(auto, using(crate::proofs::WordLaws::word_laws))]
pub fn lay_word(p: &mut [u8], w: &[u8])
    requires { (length w.now < length p.old) × (length w.now ≤ 255) }
    ensures { p.new ≡ laid_word (length p.old) w.now }
{
    p[0] = w.len() as u8;
    fill(&mut p[1..], w);
}

// A slice in canonical form: the text fits, and zeros follow it.
#[tactic(auto, using(crate::proofs::WordLaws::word_laws))]
pub fn word_fine(p: &[u8]) -> bool
    ensures { result ≡ tidy_word p.now }
{
    if p.is_empty() {
        return false;
    }
    let n = wide(p[0]);
    n < p.len() && all_zero(&p[1 + n..])
}

// A marked text: there is one where the first byte is not 0.
#[tactic(auto, using(crate::proofs::WordLaws::mark_laws))]
pub fn is_marked(p: &[u8]) -> bool
    ensures { result ≡ is_marked p.now }
{
    !p.is_empty() && p[0] != 0
}

// The text behind the mark.
#[tactic(auto, using(crate::proofs::WordLaws::mark_laws))]
pub fn marked_word(p: &[u8]) -> &[u8]
    ensures { result.now ≡ word_in (drop 1 p.now) }
{
    if p.is_empty() { p } else { word_of(&p[1..]) }
}

#[tactic(auto, using(crate::proofs::WordLaws::mark_laws))]
fn lay_marked(p: &mut [u8], w: &[u8])
    requires { (length w.now + 1 < length p.old) × (length w.now ≤ 255) }
    ensures { p.new ≡ laid_marked (length p.old) w.now }
{
    p[0] = 1;
    lay_word(&mut p[1..], w);
}

// A marked text in canonical form, or none and zeros.
#[tactic(auto, using(crate::proofs::WordLaws::mark_laws))]
pub fn marked_fine(p: &[u8]) -> bool
    ensures { result ≡ tidy_marked p.now }
{
    if p.is_empty() || p[0] == 0 {
        return all_zero(p);
    }
    p[0] == 1 && word_fine(&p[1..])
}

// The guard becomes a password.
#[tactic(auto, using(crate::proofs::WordLaws::mark_laws))]
pub fn lock(guard: &mut [u8; 18], password: &[u8])
    requires { length password.now ≤ 16 }
    ensures { guard.new ≡ laid_marked 18 password.now }
{
    lay_marked(guard, password);
}

// No guard.
#[tactic(auto, using(crate::proofs::WordLaws::mark_laws))]
pub fn unlock(guard: &mut [u8; 18])
    ensures { guard.new ≡ blank 18 }
{
    wipe(guard);
}

// The command in hand, sent by a byte code.
#[tactic(auto, using(crate::proofs::WordLaws::mark_laws))]
pub fn hold(hand: &mut [u8; 257], command: &[u8])
    requires { length command.now ≤ 255 }
    ensures { hand.new ≡ laid_marked 257 command.now }
{
    lay_marked(hand, command);
}

// Nothing in hand.
#[tactic(auto, using(crate::proofs::WordLaws::mark_laws))]
pub fn let_go(hand: &mut [u8; 257])
    ensures { hand.new ≡ blank 257 }
{
    wipe(hand);
}

// The reference of the page wanted.
#[tactic(auto, using(crate::proofs::WordLaws::mark_laws))]
pub fn want(wanted: &mut [u8; 66], reference: &[u8])
    requires { length reference.now ≤ 65 }
    ensures { wanted.new ≡ laid_word 66 reference.now }
{
    lay_word(wanted, reference);
}

// No page is wanted.
#[tactic(auto, using(crate::proofs::WordLaws::mark_laws))]
pub fn want_none(wanted: &mut [u8; 66])
    ensures { wanted.new ≡ blank 66 }
{
    wipe(wanted);
}
