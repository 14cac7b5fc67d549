// The order of causes 1 to 5 (document 01, under its refusal sheet).
#![tactic(auto)]

ghost use Rattle.std.specs.Prelude.{◌≡◌};
ghost use Rattle.refusal_order.specs.Order.{judged};

use refusal_causes::Cause;

// Which of causes 1 to 5 hold for what a call hands in. A call that lacks a part is not refused by its cause.
#[derive(Clone, Copy)]
pub struct Faults {
    pub register: bool,
    pub chains: bool,
    pub lengths: bool,
    pub slices: bool,
    pub stop: bool,
}

// The first cause that holds, in the order of causes.
pub fn judge(faults: Faults) -> Result<(), Cause>
    ensures { result ≡ judged faults }
{
    if faults.register {
        return Err(Cause::Register);
    }
    if faults.chains {
        return Err(Cause::Chains);
    }
    if faults.lengths {
        return Err(Cause::Lengths);
    }
    if faults.slices {
        return Err(Cause::TestSlice);
    }
    if faults.stop {
        return Err(Cause::StopSlice);
    }
    Ok(())
}
