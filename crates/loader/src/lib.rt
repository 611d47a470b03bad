// The loader's answer to a page: accepted by one walk, or else judged class by class.
#![tactic(auto)]

ghost use Rattle.std.specs.Prelude.{◌≡◌};
ghost use Rattle.rules.specs.Loader.{judge as Loader·judge};

use rules::Rejection;

// The classes behind those of the structure, each judged over the whole page before the next.
const CLASSES: [u8; 4] = [4, 5, 6, 7];

// The longest page.
const PAGE: usize = 4096;

// The answer to a page: accepted, or the number from 1 to 7 and the offset of its first fault.
#[tactic(auto, using(crate::proofs::JudgeLaws::judge_laws))]
pub fn judge(page: &[u8]) -> Result<(), Rejection>
    ensures { result ≡ Loader·judge page.now }
{
    let n = page.len();
    if n == 0 || PAGE < n {
        return Err(Rejection { class: 1, place: 0 });
    }
    let Some(tlv) = page::page_head(page) else {
        return Err(Rejection { class: 2, place: 0 });
    };
    if faultless::page_clean(page, tlv.stop) {
        return Ok(());
    }
    classes::structure(page, tlv.stop)?;
    for class in CLASSES {
        if let Some(place) = classes::class_fault(page, class, tlv.stop) {
            return Err(Rejection { class, place });
        }
    }
    Ok(())
}
