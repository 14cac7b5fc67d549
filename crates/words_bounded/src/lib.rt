// Bounded search over a test on numbers, as definitions and laws; the code is the test of a range.
#![tactic(auto)]

ghost use Rattle.std.specs.Prelude.{◌≡◌};
ghost use Rattle.words_bounded.specs.Bounded.{within as within_of};

// Whether a number is one of low to high.
#[tactic(auto, unfolding(crate::specs::Bounded::within))]
pub fn within(low: usize, high: usize, n: usize) -> bool
    ensures { result ≡ within_of low high n }
{
    (low..=high).contains(&n)
}
