// Numbers as an ICC profile holds them: the bits of signed numbers and of floats, and s15Fixed16 numbers. (Their bytes are in words.)

#![tactic(auto)]

pub mod bits;
pub mod fixed;

pub use bits::{f32_from_bits, f32_to_bits, f64_from_bits, i32_from_bits, i32_to_bits};
pub use fixed::{Counted, LARGEST, S15Fixed16, one_if_rounded, to_s15_fixed_16};
