// The entries on numbers: a step, a slice, and the stop slice.
#![tactic(auto)]

ghost use Rattle.std.specs.Prelude.{◌≡◌};
ghost use Rattle.stop_slice.specs.Entry.{stop_of};
ghost use Rattle.stop_slice.specs.Meaning.{FormedMeaning};
ghost use Rattle.face_values.specs.Values.{settings_of};
ghost use Rattle.face_numbers.specs.States.{step_call, slice_call, no_state, no_slice};
ghost use Rattle.face_numbers.specs.Found.{step_found, slice_found};
ghost use Rattle.face_numbers.specs.Stop.{stop_answer_of};

use face_values::Settings;
use machine_register::Register;
use machine_slices::TestSlice;
use refusal_causes::{Cause, Refusal};

// The answer of the call for a step: number 0 with the state after it, or the number and value of the refusal, and state 0.
#[repr(C)]
#[derive(Clone, Copy)]
pub struct StateAnswer {
    pub number: usize,
    pub value: usize,
    pub state: u64,
}

// The answer of the call for a slice: number 0 with the slice, or the number and value of the refusal, and slice 0.
#[repr(C)]
#[derive(Clone, Copy)]
pub struct SliceAnswer {
    pub number: usize,
    pub value: usize,
    pub slice: u64,
}

// The answer of the call for a stop slice: number 0 with the stop slice, or the number and value of the refusal, and no position.
#[repr(C)]
#[derive(Clone, Copy)]
pub struct StopAnswer {
    pub number: usize,
    pub value: usize,
    pub specified: u64,
    pub bits: u64,
}

// The refusal of a call for a step.
fn no_state(cause: Cause) -> StateAnswer
    ensures { result ≡ no_state cause }
{
    let refusal = Refusal::from(cause);
    StateAnswer {
        number: refusal.number,
        value: refusal.value,
        state: 0,
    }
}

// The refusal of a call for a slice.
fn no_slice(cause: Cause) -> SliceAnswer
    ensures { result ≡ no_slice cause }
{
    let refusal = Refusal::from(cause);
    SliceAnswer {
        number: refusal.number,
        value: refusal.value,
        slice: 0,
    }
}

// The step of a lawful register, or cause 10.
fn step_found(register: Register, state: u64) -> StateAnswer
    ensures { result ≡ step_found register state }
{
    if words_gf2::beyond(register.cells, state) {
        return no_state(Cause::SeedBeyond(0));
    }
    StateAnswer {
        number: 0,
        value: 0,
        state: register.step(state),
    }
}

// One step of the register from a state: cause 1, then 10.
pub fn step(settings: Settings, state: u64) -> StateAnswer
    ensures { result ≡ step_call (settings_of settings) state }
{
    match Register::new(settings.cells, settings.taps) {
        Ok(register) => step_found(register, state),
        Err(cause) => no_state(cause),
    }
}

// The slice of a state of a lawful register, or causes 2 and 10.
fn slice_found(settings: machine_settings::Settings, masks: &[u64], state: u64) -> SliceAnswer
    ensures { result ≡ slice_found settings masks.now state }
{
    if machine_settings::bad_chains(settings, masks) {
        return no_slice(Cause::Chains);
    }
    if words_gf2::beyond(settings.cells, state) {
        return no_slice(Cause::SeedBeyond(0));
    }
    SliceAnswer {
        number: 0,
        value: 0,
        slice: machine_settings::slice(settings, masks, state),
    }
}

// The slice of a state: causes 1 and 2, then 10.
pub fn slice(settings: Settings, masks: &[u64], state: u64) -> SliceAnswer
    ensures { result ≡ slice_call (settings_of settings) masks.now state }
{
    if machine_register::bad_register(settings.cells, settings.taps) {
        return no_slice(Cause::Register);
    }
    slice_found(settings.into(), masks, state)
}

// The number, value and stop slice of a call for one.
fn stop_answer_of(formed: Result<TestSlice, Cause>) -> StopAnswer
    ensures { result ≡ stop_answer_of formed }
{
    match formed {
        Ok(stop) => StopAnswer {
            number: 0,
            value: 0,
            specified: stop.specified,
            bits: stop.bits,
        },
        Err(cause) => {
            let refusal = Refusal::from(cause);
            StopAnswer {
                number: refusal.number,
                value: refusal.value,
                specified: 0,
                bits: 0,
            }
        }
    }
}

// The stop slice of a set: causes 2, 3, 4, then 6.
pub fn stop_slice(chains: usize, specified: &[u64], bits: &[u64]) -> StopAnswer
    ensures answer { result ≡ stop_answer_of (stop_of chains specified.now bits.now) }
    ensures meaning { FormedMeaning chains specified.now bits.now (stop_of chains specified.now bits.now) }
{
    stop_answer_of(stop_slice::stop_slice(chains, specified, bits))
}
