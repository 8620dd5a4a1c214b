// The field that says when to try again.
ghost use Rattle.std.specs.Prelude.{◌≡◌};
ghost use Rattle.sdk_reply.specs.After.{after_date, after_http, after_text};
ghost use Rattle.sdk_reply.specs.Dates.{date_moment, http_moment, millis};
ghost use Rattle.jiff.specs.Words.{IsTimestampNanos};

use crate::delays::LONGEST_DELAY;
use httpdate::HttpDate;
use jiff::fmt::temporal::parse_timestamp;
use kinds::After;
use text_num::read_u64;

/// Reads the text of a field `Retry-After`: a number of seconds, else an HTTP date, else an RFC 3339
/// date.
pub(crate) fn read_after(text: &[u8]) -> After
    ensures { result ≡ after_text text.now }
{
    match read_u64(text) {
        Ok(seconds) => After::Millis(seconds.saturating_mul(1_000).min(LONGEST_DELAY)),
        Err(_) => read_dates(text),
    }
}

fn read_dates(text: &[u8]) -> After
    ensures { result ≡ after_http text.now (http_moment text.now) }
{
    match http_moment(text) {
        Some(moment) => After::At(moment),
        None => after_date(text),
    }
}

fn after_date(text: &[u8]) -> After
    ensures { result ≡ after_date (date_moment text.now) }
{
    match date_moment(text) {
        Some(moment) => After::At(moment),
        None => After::None,
    }
}

/// A date of an HTTP field, in milliseconds since 1970.
#[tactic(auto, unfolding(crate::specs::Dates::http_moment))]
fn http_moment(text: &[u8]) -> Option<u64>
    ensures { result ≡ http_moment text.now }
{
    let date = HttpDate::parse_ascii(text).ok()?;
    Some(date.unix_secs() * 1_000)
}

/// A date as an instant, in milliseconds since 1970, rounded down; 0 for one before.
#[tactic(auto, unfolding(crate::specs::Dates::date_moment))]
pub(crate) fn date_moment(text: &[u8]) -> Option<u64>
    ensures { result ≡ date_moment text.now }
{
    let instant = parse_timestamp(text).ok()?;
    Some(millis(instant.nanosecond))
}

/// Nanoseconds since 1970 as milliseconds, rounded down, and 0 before.
fn millis(nanoseconds: i128) -> u64
    requires { IsTimestampNanos nanoseconds }
    ensures { result ≡ millis nanoseconds }
{
    if nanoseconds < 0 {
        return 0;
    }
    (nanoseconds / 1_000_000) as u64
}
