// A 32-bit number and its two's complement.
ghost use Rattle.std.specs.Prelude.{◌≡◌};
ghost use Rattle.std.proofs.Common.{to_z, of_z};
ghost use Rattle.std.specs.Int.{w32};

pub fn signed(x: u32) -> i32
    ensures { result ≡ to_z w32 x }
{
    x.cast_signed()
}

pub fn bits(z: i32) -> u32
    ensures { result ≡ of_z w32 z }
{
    z.cast_unsigned()
}
