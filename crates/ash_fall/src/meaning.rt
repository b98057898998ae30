// What a place of an ash fall report says: a code that lies in no prefecture is told as such.
ghost use Rattle.std.specs.Prelude.{◌≡◌};
ghost use Rattle.ash_fall.specs.Meaning.{prefecture_of};

// The prefecture that a place lies in, 1 to 47.
#[tactic(auto, unfolding(crate::specs::Meaning::prefecture_of))]
pub fn prefecture_of(place: u64) -> Option<u8>
    ensures { result ≡ prefecture_of place }
{
    match place {
        100000..=4799999 => Some((place / 100000) as u8),
        _ => None,
    }
}
