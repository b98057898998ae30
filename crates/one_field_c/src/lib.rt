// One field of a frame, as a library for tests from C. This is not delivered.
#![tactic(auto)]

ghost use Rattle.std.specs.Prelude.{◌≡◌};
ghost use Rattle.bits.specs.Frame.{field_in, frame_in};

// Calls the function of its name in the crate `one_field`, and promises the same.
#[unsafe(no_mangle)]
pub extern "C" fn one_field(frame: &[u8], first: usize, width: usize) -> u64
    ensures { result ≡ field_in 57 (frame_in frame.now) first width }
{
    one_field::one_field(frame, first, width)
}
