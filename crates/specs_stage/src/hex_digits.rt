ghost use Rattle.std.specs.Prelude.{◌≡◌, ◌<◌, ◌∷◌, ◌++◌, ℕ, List, OnOk, IfOk, IfSome, if◌then◌else◌, option_map, Some, None};
ghost use Rattle.pipe_model.specs.Numbers.{hex_digit, to_hex, hex_value, onto_bytes, from_hex};

use pipe_model::NoMemory;

// The upper-case hexadecimal digit.
fn hex_digit(value: u8) -> u8
    requires { value < 16 }
    ensures { result ≡ hex_digit value }
{
    if value < 10 {
        b'0' + value
    } else {
        b'A' - 10 + value
    }
}

// Adds two digits for each byte.
pub(crate) fn add_to_hex(text: &mut Vec<u8>, bytes: &[u8]) -> Result<(), NoMemory>
    ensures { OnOk result (text.new.items ≡ text.old.items ++ to_hex bytes.now) }
{
    for byte in bytes {
        text.push(hex_digit(*byte / 16))?;
        text.push(hex_digit(*byte % 16))?;
    }
    Ok(())
}

// What a hexadecimal digit of either case stands for.
fn hex_value(digit: u8) -> Option<u8>
    ensures value { result ≡ hex_value digit }
    ensures small { IfSome result (λ value. value < 16) }
{
    match digit {
        b'0'..=b'9' => Some(digit - b'0'),
        b'A'..=b'F' => Some(digit - b'A' + 10),
        b'a'..=b'f' => Some(digit - b'a' + 10),
        _ => None,
    }
}

// The byte that two digits stand for.
fn byte_of(high: u8, low: u8) -> Option<u8>
    ensures { (rest : List ℕ) → onto_bytes (hex_value high) (hex_value low) (Some rest) ≡ option_map (λ byte. byte ∷ rest) result }
{
    Some(16 * hex_value(high)? + hex_value(low)?)
}

// Adds a byte for each two digits, where the text is an even number of digits. Where it isn't, `false` says so.
pub(crate) fn add_from_hex(bytes: &mut Vec<u8>, digits: &[u8]) -> Result<bool, NoMemory>
    ensures { IfOk result (λ whole. option_map (λ more. bytes.old.items ++ more) (from_hex digits.now) ≡ (if whole then Some bytes.new.items else None)) }
{
    let mut rest = digits;
    while let [high, low, behind @ ..] = rest {
        match byte_of(*high, *low) {
            Some(byte) => bytes.push(byte)?,
            None => return Ok(false),
        }
        rest = behind;
    }
    Ok(rest.is_empty())
}
