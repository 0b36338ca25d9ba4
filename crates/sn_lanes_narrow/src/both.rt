//! Marks of several conditions.
ghost use Rattle.std.specs.Prelude.{◌≡◌, length, bit_and};
ghost use Rattle.std.specs.Simd.Lanes.{zip2};

/// Keeps the marks that these marks have too. The compiler does it in lanes by itself. Takes no memory.
pub fn both(marks: &[u8], out: &mut [u8])
    requires { length marks.now ≡ length out.old }
    ensures { out.new ≡ zip2 bit_and out.old marks.now }
{
    for (place, mark) in marks.iter().enumerate() {
        out[place] &= *mark;
    }
}
