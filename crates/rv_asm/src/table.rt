//! Places of texts among others.

ghost use Rattle.std.specs.Prelude.{◌≡◌, ◌<◌, map, length, IfSome};
ghost use Rattle.rv_asm.specs.Places.{place_of};

/// The first place of a text among others.
#[tactic(auto, using(crate::proofs::TextPlaces::place_more, crate::proofs::TextPlaces::place_end))]
pub fn place_of(texts: &[&str], text: &[u8]) -> Option<usize>
    ensures within { IfSome result (λ place. place < length texts.now) }
    ensures first { result ≡ place_of 0 (map (λ it. it.now) texts.now) text.now }
{
    for place in 0..texts.len() {
        if texts[place].as_bytes() == text {
            return Some(place);
        }
    }
    None
}
