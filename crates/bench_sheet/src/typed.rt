// The numbers that were typed in so far, at most twelve.
ghost use Rattle.std.specs.Prelude.{◌≤◌};

mod reading;

#[derive(Clone, Copy)]
pub struct Typed {
    numbers: [u32; 12],
    count: usize,
    ghost few: { count ≤ 12 },
}
