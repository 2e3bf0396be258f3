//! The calls of a storm's callers.
ghost use Rattle.std.specs.Prelude.{◌≡◌, decimal};
ghost use Rattle.exh_live.specs.StormCalls.{storm_call};

use exh_calls::Call;
use exh_page::{Key, Value};
use itoa::Buffer;

// How many keys the callers of a storm call.
const KEYS: u64 = 50;

/// Call `number`, from 1 on, of a caller: its key is the decimal text of (7 caller + 13 number) mod 50,
/// and it puts the number's text, gets and deletes by turns. It takes no memory.
pub fn storm_call(caller: u32, number: u32) -> Call
    ensures { result ≡ storm_call caller number }
{
    let key = key_of((7 * u64::from(caller) + 13 * u64::from(number)) % KEYS);
    match number % 3 {
        1 => Call::Put {
            key,
            value: value_of(number),
        },
        2 => Call::Get { key },
        _ => Call::Del { key },
    }
}

// The key that is the decimal text of a number.
#[tactic(auto, using(std::proofs::lemmas::Fmt::decimal_nonempty))]
fn key_of(number: u64) -> Key
    ensures { result ≡ decimal number }
{
    let mut buffer = Buffer::new();
    match Key::from_bytes(buffer.format(number).as_bytes()) {
        Ok(key) => key,
        Err(_) => unreachable!(),
    }
}

// The value that is the decimal text of a number.
fn value_of(number: u32) -> Value
    ensures { result ≡ decimal number }
{
    let mut buffer = Buffer::new();
    match Value::from_bytes(buffer.format(number).as_bytes()) {
        Ok(value) => value,
        Err(_) => unreachable!(),
    }
}
