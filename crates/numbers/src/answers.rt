// The number that a C host gets.
ghost use Rattle.std.specs.Prelude.{◌≡◌, true, ◌≤◌};
ghost use Rattle.base.specs.Numbers.{number_of, answer_number};
ghost use Rattle.base.specs.Told.{told};
ghost use Rattle.memory.specs.Blocks.{counted};
ghost use Rattle.asm.specs.Assemble.{reported};
ghost use Rattle.source.specs.Source.{Small};
ghost use Rattle.source.specs.Source as Source;
ghost use Rattle.numbers.specs.Answers.{coded, step_code, counted_number, listed_number, sourced_number, assembled_number, fitting};

use asm::Totals;
use base::Refusal;
use machine::StepAnswer;

// The most that is counted above a code: 2^48 - 1.
const MOST: u64 = 281474976710655;

fn refused(r: Refusal) -> u64
    ensures value { result ≡ number_of r }
    ensures upper_bound { result ≤ 255 }
{
    u64::from(u8::from(r))
}

pub fn bad_block() -> u64
    ensures { result ≡ 31 }
{
    refused(Refusal::BadBlock)
}

// What is counted stands above the code.
fn coded(code: u64, above: u64) -> u64
    requires code_bound { code ≤ 65535 }
    requires above_bound { above ≤ 281474976710655 }
    ensures { result ≡ coded code above }
{
    code + 65536 * above
}

pub fn of_answer(a: Result<(), Refusal>) -> u64
    ensures { result ≡ answer_number a }
{
    match a {
        Ok(()) => 0,
        Err(r) => refused(r),
    }
}

pub fn of_step(a: Result<StepAnswer, Refusal>) -> u64
    ensures value { result ≡ step_code (told a) }
    ensures upper_bound { result ≤ 65535 }
{
    match a {
        Ok(StepAnswer::Continue) => 0,
        Ok(StepAnswer::Debug) => 256,
        Ok(StepAnswer::Stop) => 257,
        Err(r) => refused(r),
    }
}

pub fn of_run(a: Result<StepAnswer, Refusal>, count: u32) -> u64
    ensures { result ≡ coded (step_code (told a)) count }
{
    coded(of_step(a), u64::from(count))
}

// Of an answer that counts bytes: those that were read out, or those of a text.
pub fn of_count(a: Result<usize, Refusal>) -> u64
    requires { (counted a).count ≤ 281474976710655 }
    ensures read { result ≡ counted_number (counted a) }
    ensures listed { result ≡ listed_number (told a) }
{
    match a {
        Ok(n) => coded(0, n as u64),
        Err(r) => refused(r),
    }
}

pub fn of_text(a: Result<usize, source::Fault>) -> u64
    requires { Small (Source.answered a) }
    ensures { result ≡ sourced_number (Source.answered a) }
{
    match a {
        Ok(n) => coded(0, n as u64),
        Err(f) => coded(refused(f.refusal), f.index as u64),
    }
}

// A line over 2^48 - 1 does not fit above the code.
pub fn of_assembly(a: Result<Totals, asm::Fault>) -> u64
    requires { fitting (reported a) ≡ true }
    ensures { result ≡ assembled_number (reported a) }
{
    match a {
        Ok(t) => {
            65536 * (t.words as u64)
                + 4294967296 * (t.waiting as u64)
                + 281474976710656 * (t.labels as u64)
        }
        Err(f) => coded(refused(f.refusal), (f.line as u64).min(MOST)),
    }
}
