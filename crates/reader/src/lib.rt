// A reader of TLVs: it holds its container's bytes and a place in them, so that no TLV that it reads ends outside its container (clause 5).
#![tactic(auto)]

ghost use Rattle.std.specs.Prelude.{◌≡◌, ◌≤◌, length};
ghost use Rattle.rules.specs.Tlv.{head_at};
ghost use Rattle.reader.specs.Next.{next_at};

use rules::Tlv;

#[derive(Clone, Copy)]
pub struct Reader<'a> {
    pub container: &'a [u8],
    pub place: usize,
}

impl<'a> Reader<'a> {
    // A reader at a place of a container.
    pub fn new(container: &'a [u8], place: usize) -> Reader<'a>
        ensures { (result.container ≡ container.entry) × (result.place ≡ place) }
    {
        Reader { container, place }
    }

    // The TLV at its place.
    pub fn head(self) -> Option<Tlv>
        ensures { result ≡ head_at self.entry.container.now self.entry.place (length self.entry.container.now) }
    {
        tlv::head_at(self.container, self.place, self.container.len())
    }

    // The reader at the place after that TLV.
    #[tactic(auto, unfolding(crate::specs::Next::next_at, crate::specs::Next::stop_or))]
    pub fn next(self) -> Reader<'a>
        ensures { (result.container ≡ self.entry.container) × (result.place ≡ next_at self.entry.container.now self.entry.place) }
    {
        let place = self.head().map_or(self.container.len(), |tlv| tlv.stop);
        Reader { place, ..self }
    }
}

// The TLV at a place, before an end: the container is what stands before the end.
#[tactic(auto, using(crate::proofs::Front::front_laws))]
pub fn head_at(s: &[u8], at: usize, end: usize) -> Option<Tlv>
    requires { end ≤ length s.now }
    ensures { result ≡ head_at s.now at end }
{
    Reader::new(&s[..end], at).head()
}
