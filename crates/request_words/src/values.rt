ghost use Rattle.std.specs.Prelude.{◌≡◌, ◌≤◌, Some, IfSome};
ghost use Rattle.std.specs.List.{list_all};
ghost use Rattle.request_words.specs.Values.{is_name_of, is_name_byte, model_of, digit_added, number_behind, number_of, seed_of, NumbersAreRead, SeedsAreRead};

use lv_base::Model;

/// Whether a word is a name.
pub fn is_name(word: &str) -> bool
    ensures { result ≡ is_name_of word.now }
{
    let bytes = word.as_bytes();
    if bytes.is_empty() || bytes[0] == b'-' {
        return false;
    }
    has_name_bytes(bytes)
}

fn has_name_bytes(bytes: &[u8]) -> bool
    ensures { result ≡ list_all is_name_byte bytes.now }
{
    bytes.iter().all(|b| name_byte(*b))
}

fn name_byte(byte: u8) -> bool
    ensures { result ≡ is_name_byte byte }
{
    byte >= 0x20 && byte != 0x7F
}

/// The data model of this name.
pub fn model_in(value: &[u8]) -> Option<Model>
    ensures { result ≡ model_of value.now }
{
    if value == b"ilp32".as_slice() {
        Some(Model::Ilp32)
    } else if value == b"lp64".as_slice() {
        Some(Model::Lp64)
    } else {
        None
    }
}

/// The number from 1 on that these decimal digits without leading zeros write, if it is not above `most`.
pub fn number_in(value: &[u8], most: u64) -> Option<u64>
    requires { most ≤ 4294967295 }
    ensures value { result ≡ number_of most value.now }
    ensures small { IfSome result (λ n. n ≤ most) }
{
    if value.is_empty() || value[0] == b'0' {
        return None;
    }
    digits(value, most)
}

fn digits(bytes: &[u8], most: u64) -> Option<u64>
    requires { most ≤ 4294967295 }
    ensures value { result ≡ number_behind most (Some 0) bytes.now }
    ensures small { IfSome result (λ n. n ≤ most) }
{
    let mut number = 0;
    for byte in bytes {
        match with_digit(number, *byte, most) {
            Some(next) => number = next,
            None => return None,
        }
    }
    Some(number)
}

fn with_digit(number: u64, byte: u8, most: u64) -> Option<u64>
    requires most { most ≤ 4294967295 }
    requires small { number ≤ most }
    ensures value { result ≡ digit_added most number byte }
    ensures small { IfSome result (λ n. n ≤ most) }
{
    if byte < b'0' || byte > b'9' {
        return None;
    }
    let next = number * 10 + (byte - b'0') as u64;
    if next > most {
        return None;
    }
    Some(next)
}

/// The number from 0 to 4294967295 that these decimal digits without leading zeros write.
pub fn seed_in(value: &[u8]) -> Option<u32>
    ensures { result ≡ seed_of value.now }
{
    if value == b"0".as_slice() {
        return Some(0);
    }
    match number_in(value, 4_294_967_295) {
        Some(seed) => Some(seed as u32),
        None => None,
    }
}

/// A number is read from its decimal digits alone.
pub fn numbers_are_read()
    ensures { NumbersAreRead }
{}

/// So is a seed.
pub fn seeds_are_read()
    ensures { SeedsAreRead }
{}
