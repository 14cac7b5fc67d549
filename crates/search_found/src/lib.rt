// What a search has found, and the lower of that and a state.
#![tactic(auto)]

ghost use Rattle.std.specs.Prelude.{◌≡◌, Some};
ghost use Rattle.search_found.specs.Lower.{lower, reached as reached_of};

// Whether what was found is as low as a state.
pub fn reached(found: Option<u64>, state: u64) -> bool
    ensures { result ≡ reached_of found state }
{
    match found {
        Some(lowest) => lowest <= state,
        None => false,
    }
}

// The lower of what was found before and a state.
pub fn lower_of(before: Option<u64>, state: u64) -> Option<u64>
    ensures { result ≡ lower before (Some state) }
{
    if reached(before, state) {
        before
    } else {
        Some(state)
    }
}
