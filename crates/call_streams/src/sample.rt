//! The input of the sample.
ghost use Rattle.std.specs.Prelude.{◌≡◌, ◌<◌, ◌≤◌, ◌^◌, ◌++◌, IfOk, OnOk};
ghost use Rattle.call_meaning.specs.Sample.{next_number, sample_line, sample_text};

use crate::text::{add, add_number};
use pipe_model::NoMemory;
use std::alloc::Global;

/// The input of so many lines.
pub fn sample_input(alloc: Global, count: u32) -> Result<Vec<u8>, NoMemory>
    ensures { IfOk result (λ text. text.items ≡ sample_text count) }
{
    let mut text = Vec::new(alloc);
    let mut number = 1;
    for _ in 0..count {
        number = next_number(number);
        add_line(&mut text, number)?;
    }
    Ok(text)
}

// The number behind this one.
fn next_number(number: u64) -> u64
    requires { number < 2 ^ 31 }
    ensures next { result ≡ next_number number }
    ensures small { result < 2 ^ 31 }
{
    (number * 1_103_515_245 + 12_345) % 2_147_483_648
}

// The line of a number.
fn add_line(text: &mut Vec<u8>, number: u64) -> Result<(), NoMemory>
    ensures { OnOk result (text.new.items ≡ text.old.items ++ sample_line number) }
{
    add(text, "k")?;
    add_number(text, number % 1000)?;
    add(text, "\n")
}
