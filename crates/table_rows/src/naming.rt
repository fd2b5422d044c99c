//! The tables that the words behind a program's name are names of.

ghost use Rattle.std.specs.Prelude.{◌≡◌, ◌==◌, MatchBool, MatchResult};

use std::rt::Env;
use std::{env, fmt};

/// The status for a table: 0 where all rows are so, 1 where some are not, and 2 where it is not tried to its end, which is told.
pub fn status_for<R: Eprint, E: fmt::Display + Drop>(
    rt: &R,
    name: &str,
    tried: Result<u64, E>,
) -> u8
    ensures { MatchResult tried (λ others. MatchBool (others == 0) (result ≡ 0) (result ≡ 1)) (λ _. result ≡ 2) }
{
    match tried {
        Ok(0) => 0,
        Ok(_) => 1,
        Err(refusal) => {
            let _ = eprintln!(rt; "{name}: {refusal}");
            2
        }
    }
}

/// Tries the tables whose names are the words behind the program's name, by what tries one and answers its status; the greatest status.
pub fn try_named<R: AllocGlobal + Env + Eprint, F: Fn(&str) -> u8>(rt: &R, try_one: F) -> u8
    requires { F.IsAlwaysCallable try_one }
{
    let Ok(words) = env::args(rt) else {
        let _ = eprintln!(rt; "give the names of tables");
        return 2;
    };
    let mut greatest = 0u8;
    for name in words.skip(1) {
        greatest = greatest.max(try_one(name.as_str()));
    }
    greatest
}
