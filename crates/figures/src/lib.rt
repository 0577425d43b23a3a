// The figures of the commissioning bench, and that each is what the account's definitions give.
#![tactic(auto)]

ghost use Rattle.std.specs.Prelude.{◌≡◌, length, All};
ghost use Rattle.figures.specs.Figures.{Holds, figures as figures_of_the_bench};

// How many figures there are. Its contract is the statement that each of them holds.
pub fn figures_that_hold() -> usize
    ensures hold { All Holds figures_of_the_bench }
    ensures answer { result ≡ length figures_of_the_bench }
{
    9
}
