// Bytes put one after another into what is lent. Each function answers the place after them.
#![tactic(auto)]

ghost use Rattle.std.specs.Prelude.{◌≡◌, ◌∷◌, ◌+◌, ◌≤◌, length};
ghost use Rattle.rules.specs.Value.{shortest};
ghost use Rattle.pour.specs.Pour.{poured};

// Bytes from a place on.
pub fn append(out: &mut [u8], place: usize, bytes: &[u8]) -> usize
    requires { place + length bytes.now ≤ length out.old }
    ensures { (result ≡ place + length bytes.now) × (out.new ≡ poured out.old place bytes.now) }
{
    pour::pour(out, place, bytes);
    place + bytes.len()
}

// The size of a tag and a length in the shortest form.
#[tactic(auto, using(ber::proofs::FormLaws::shortest_size), unfolding(ber::specs::Form::form_of))]
pub fn header_size(n: usize) -> usize
    ensures { (result ≡ 1 + length (shortest n)) × (result ≤ 5) }
{
    1 + ber::shortest(n).length
}

// A tag and a length in the shortest form, from a place on.
#[tactic(auto, using(ber::proofs::FormLaws::shortest_size), unfolding(ber::specs::Form::form_of))]
pub fn header(out: &mut [u8], place: usize, tag: u8, n: usize) -> usize
    requires { place + 1 + length (shortest n) ≤ length out.old }
    ensures { (result ≡ place + length (tag ∷ shortest n)) × (result ≤ place + 5) × (out.new ≡ poured out.old place (tag ∷ shortest n)) }
{
    let next = append(out, place, &[tag]);
    let form = ber::shortest(n);
    append(out, next, &form.bytes[..form.length])
}
