// What every crate that computes with floats shares. specs/ has Rust's operators on f32 and f64, 0.0 and 1.0, the magnitude, the fields of a bit
// pattern, the rounding of fractions and the narrowing of an f64 to an f32.

#![tactic(auto)]

// `abs_below` stands in each of these two: a trait over the formats would have its one line twice as well.
pub mod binary32;
pub mod binary64;
pub mod narrow;
pub mod rounding;

pub use narrow::f64_to_f32;
