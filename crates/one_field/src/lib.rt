// One field of a frame, for tests from C. In the delivered library every field is read where it is wanted, without
// a call, so that there is none whose stack and whose bytes could be measured. This is not delivered.
#![tactic(auto)]

ghost use Rattle.std.specs.Prelude.{◌≡◌};
ghost use Rattle.bits.specs.Frame.{field_in, frame_in};

// The field of `width` bits at the bit `first` of a lent frame, as `bits::field` reads it into 64 bits.
pub fn one_field(frame: &[u8], first: usize, width: usize) -> u64
    ensures { result ≡ field_in 57 (frame_in frame.now) first width }
{
    bits::field(frame, first, width)
}
