// The answers of the entries for C and Rust: structs of numbers, made from what the crates below answer.
#![tactic(auto)]

ghost use Rattle.std.specs.Prelude.{◌≡◌};
ghost use Rattle.face_answers.specs.Answers.{answer_of, cubes_answer_of, seed_answer_of, text_answer_of};

use encoder_meaning::Encoded;
use refusal_causes::{Cause, Refusal};
use text_replies::{TextRefused, TextWritten};

// The answer of a call that writes into a lent buffer: number 0 with the entries written, or the number and value of the refusal.
#[repr(C)]
#[derive(Clone, Copy)]
pub struct Answer {
    pub number: usize,
    pub value: usize,
}

// The answer of the call for a window's seed: number 0 with the seed, or the number and value of the refusal, and seed 0.
#[repr(C)]
#[derive(Clone, Copy)]
pub struct SeedAnswer {
    pub number: usize,
    pub value: usize,
    pub seed: u64,
}

// The answer of the call for cubes: number 0 with the seeds written and the stop slice, or the number and value of the refusal, and no position.
#[repr(C)]
#[derive(Clone, Copy)]
pub struct CubesAnswer {
    pub number: usize,
    pub value: usize,
    pub specified: u64,
    pub bits: u64,
}

// The answer of a text call: number 0 with the bytes written and how many seeds or slices they say; or the number and value of the refusal, and beside cause 9 how many seeds or slices enough space would have given, else 0.
#[repr(C)]
#[derive(Clone, Copy)]
pub struct TextAnswer {
    pub number: usize,
    pub value: usize,
    pub entries: usize,
}

// The number and value of a call that writes.
pub fn answer_of(written: Result<usize, Cause>) -> Answer
    ensures { result ≡ answer_of written }
{
    match written {
        Ok(count) => Answer {
            number: 0,
            value: count,
        },
        Err(cause) => {
            let refusal = Refusal::from(cause);
            Answer {
                number: refusal.number,
                value: refusal.value,
            }
        }
    }
}

// The number, value and seed of a call for one.
pub fn seed_answer_of(seed: Result<u64, Cause>) -> SeedAnswer
    ensures { result ≡ seed_answer_of seed }
{
    match seed {
        Ok(state) => SeedAnswer {
            number: 0,
            value: 0,
            seed: state,
        },
        Err(cause) => {
            let refusal = Refusal::from(cause);
            SeedAnswer {
                number: refusal.number,
                value: refusal.value,
                seed: 0,
            }
        }
    }
}

// The number, value and stop slice of a call for cubes.
pub fn cubes_answer_of(encoded: Result<Encoded, Cause>) -> CubesAnswer
    ensures { result ≡ cubes_answer_of encoded }
{
    match encoded {
        Ok(list) => CubesAnswer {
            number: 0,
            value: list.seeds,
            specified: list.stop.specified,
            bits: list.stop.bits,
        },
        Err(cause) => {
            let refusal = Refusal::from(cause);
            CubesAnswer {
                number: refusal.number,
                value: refusal.value,
                specified: 0,
                bits: 0,
            }
        }
    }
}

// The number, value and entries of a text call.
pub fn text_answer_of(answer: Result<TextWritten, TextRefused>) -> TextAnswer
    ensures { result ≡ text_answer_of answer }
{
    match answer {
        Ok(text) => TextAnswer {
            number: 0,
            value: text.bytes,
            entries: text.entries,
        },
        Err(told) => TextAnswer {
            number: told.refusal.number,
            value: told.refusal.value,
            entries: told.entries,
        },
    }
}
