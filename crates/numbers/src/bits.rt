// The bits of a signed number and of a float, as unsigned numbers.

ghost use Rattle.std.specs.Prelude.{◌≡◌};
ghost use Rattle.std.specs.Float.{binary32, binary64};
ghost use Rattle.std.specs.Float.Ieee.{of_bits, to_bits};
ghost use Rattle.words.specs.Words.{twos_complement32, signed32};

pub fn i32_to_bits(v: i32) -> u32
    ensures { result ≡ twos_complement32 v }
{
    v.cast_unsigned()
}

// The way back.
pub fn i32_from_bits(b: u32) -> i32
    ensures { result ≡ signed32 b }
{
    b.cast_signed()
}

// f32::from_bits takes no NaN's pattern; every one of them stands for the one NaN.
pub fn f32_from_bits(bits: u32) -> f32
    ensures { result ≡ of_bits binary32 bits }
{
    if 0x7f80_0000 < bits % 2147483648 {
        0.0 / 0.0
    } else {
        f32::from_bits(bits)
    }
}

// The same at 64 bits.
pub fn f64_from_bits(bits: u64) -> f64
    ensures { result ≡ of_bits binary64 bits }
{
    if 0x7ff0_0000_0000_0000 < bits % 9223372036854775808 {
        0.0 / 0.0
    } else {
        f64::from_bits(bits)
    }
}

// The bits of a float; those of a NaN are always the same.
pub fn f32_to_bits(x: f32) -> u32
    ensures { result ≡ to_bits binary32 x }
{
    if x.is_nan() {
        0x7fc0_0000
    } else {
        f32::to_bits(x)
    }
}
