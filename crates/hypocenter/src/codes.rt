// Which values a field may hold.
ghost use Rattle.std.specs.Prelude.{◌∷◌, [], ◌≡◌};
ghost use Rattle.rows.specs.Layout.{◌to◌};
ghost use Rattle.rows.specs.Runs.Verdict.{allowed};

use crate::meaning::{Depth, Magnitude};

#[tactic(auto, unfolding(crate::specs::Hypocenter::depth_of, rows::specs::Runs::Verdict::allowed))]
pub(crate) fn is_depth(v: u16) -> bool
    ensures { result ≡ allowed (0 to 501 ∷ 511 to 511 ∷ []) v }
{
    !matches!(Depth::of(v), Depth::OutOfRange)
}

#[tactic(auto, unfolding(crate::specs::Hypocenter::magnitude_of, rows::specs::Runs::Verdict::allowed))]
pub(crate) fn is_magnitude(v: u8) -> bool
    ensures { result ≡ allowed (1 to 101 ∷ 126 to 126 ∷ 127 to 127 ∷ []) v }
{
    !matches!(Magnitude::of(v), Magnitude::OutOfRange)
}
