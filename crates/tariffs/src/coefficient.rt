// What a base price is multiplied by at an hour, in tenths: 0 to 1.5.
ghost use Rattle.std.specs.Prelude.{◌≤◌};

#[derive(Clone, Copy, Debug, PartialEq, Eq)]
pub struct Coefficient {
    pub tenths: u32,
    ghost bounded: { tenths ≤ 15 },
}
