//! Moments as texts in UTC, by the proleptic Gregorian calendar.
#![tactic(auto)]

ghost use Rattle.std.specs.Prelude.{◌≡◌, IfOk, string_bytes, unsigned_abs};
ghost use Rattle.moment_text.specs.Moments.{IsMoment, time_text};

use jiff::Timestamp;
use jiff::tz::Offset;
use lv_base::Memory;
use std::alloc::Global;

/// A moment, in seconds since the first of January 1970, as `YYYY-MM-DDThh:mm:ssZ`.
///
/// Fails with `Memory` where memory runs out.
pub fn moment_text(alloc: Global, moment: i64) -> Result<String, Memory>
    requires { IsMoment moment }
    ensures { IfOk result (λ s. string_bytes s ≡ time_text (unsigned_abs moment)) }
{
    let timestamp = Timestamp::from_second(moment).unwrap();
    let time = Offset::UTC.to_datetime(timestamp);
    Ok(format!(in alloc; "{time}Z")?)
}
