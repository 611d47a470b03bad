// The type of a value (clauses 7.5 and 8.1).
#![tactic(auto)]

ghost use Rattle.std.specs.Prelude.{◌≡◌, ◌≤◌, length};
ghost use Rattle.rules.specs.Bytes.{part};
ghost use Rattle.rules.specs.Pieces.{named};
ghost use Rattle.rules.specs.Value.{shared, inline_type, type_for};
ghost use Rattle.variable.specs.View.{viewed};

use rules::Tlv;
use variable::View;

// The type that all variables of a list share, else unknown.
#[tactic(auto, using(crate::proofs::TypeLaws::shared_laws, crate::proofs::TypeLaws::shared_more))]
pub fn shared_type(view: View, from: usize, end: usize) -> u8
    requires { end ≤ length view.page.now }
    ensures { result ≡ shared (viewed view.entry) (named (part view.entry.page.now from end)) }
{
    if end <= from {
        return 0;
    }
    let first = variable::type_of(view, view.page[from]);
    let mut at = from + 1;
    while at < end {
        if variable::type_of(view, view.page[at]) != first {
            return 0;
        }
        at += 1;
    }
    first
}

// The type of an Inline Value: its own, or the page's where that is unknown.
#[tactic(auto, using(crate::proofs::TypeLaws::inline_laws))]
pub fn inline_type(page: &[u8], tlv: Tlv) -> u8
    requires { tlv.stop ≤ length page.now }
    ensures { result ≡ inline_type page.now tlv.tag tlv.start tlv.stop }
{
    let own = page::type_of(tlv::attribute_of(page, tlv) % 8);
    if own == 0 { page::page_type(page) } else { own }
}

// The type of an Inline Value or of a list.
#[tactic(auto, using(crate::proofs::TypeLaws::type_laws))]
pub fn type_for(view: View, tlv: Tlv) -> u8
    requires { tlv.stop ≤ length view.page.now }
    ensures { result ≡ type_for (viewed view.entry) tlv.tag tlv.start tlv.stop }
{
    if tlv.tag == 0x0D {
        shared_type(view, tlv.start, tlv.stop)
    } else {
        inline_type(view.page, tlv)
    }
}
