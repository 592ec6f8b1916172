// On f32.

ghost use Rattle.std.specs.Prelude.{◌≡◌};
ghost use Rattle.std.specs.Float.Ieee.{lt};
ghost use Rattle.floats.specs.Abs.{abs};

// Whether the magnitude of x is below the bound.
#[tactic(auto, using(crate::specs::AbsLaws::abs_is))]
pub fn abs_below(x: f32, bound: f32) -> bool
    ensures { result ≡ lt (abs x) bound }
{
    x.abs() < bound
}
