// The URL and the retries of a function.
ghost use Rattle.lists.specs.Starved.{OrStarved};
ghost use Rattle.std.specs.Prelude.{◌≡◌, IfOk, None, option_map};
ghost use Rattle.serde_json.specs.View.{view};
ghost use Rattle.registry.specs.Steps.{address_with, address_in, callable, is_callable, of_parsed, retries_in, retries_member, step_in, url_in};
ghost use Rattle.url.specs.Parser.{parse_url};
ghost use Rattle.url.specs.Parts.{has_credentials};
ghost use Rattle.registry.specs.declared.flaw.Flaw.TheVariants as flaw;

use crate::address::Address;
use crate::flaw::Flaw;
use crate::part::{part, whole};
use lists::{Bytes, Memory};
use serde_json::Value;
use std::alloc::Global;
use url::{ParseError, Url};

/// The greatest length of an application's URL as it is written, its fragment with it, in bytes.
const MOST_BYTES: usize = 2_048;

/// The port of an `http` URL that names none.
const DEFAULT_PORT: u16 = 80;

/// Retries after the first attempt where the registration doesn't say, and the most.
const DEFAULT_RETRIES: u8 = 4;

const MOST_RETRIES: u64 = 20;

/// The member `step` of the member `steps`.
fn step_in(function: &Value) -> Option<&Value>
    ensures { option_map (λ v. view v.now) result ≡ step_in (view function.now) }
{
    part(part(function, "steps")?, "step")
}

/// The text of the application's URL.
fn url_in(function: &Value) -> Option<&str>
    ensures { option_map (λ s. s.now) result ≡ url_in (step_in (view function.now)) }
{
    part(part(step_in(function)?, "runtime")?, "url")?.as_str()
}

/// Where the calls of a function go.
#[tactic(auto, unfolding(crate::specs::Steps::address_in))]
pub(crate) fn address_in(alloc: Global, function: &Value) -> Result<Address, Flaw>
    ensures { OrStarved flaw.Memory (address_in (view function.now)) result }
{
    match url_in(function) {
        Some(text) => text_address(alloc, text),
        None => Err(Flaw::Url),
    }
}

fn text_address(alloc: Global, text: &str) -> Result<Address, Flaw>
    ensures { OrStarved flaw.Memory (of_parsed (parse_url None text.now)) result }
{
    match Url::parse(alloc, text) {
        Ok(url) => callable(alloc, &url),
        Err(ParseError::OutOfMemory | ParseError::Overflow) => Err(Flaw::Memory),
        Err(_) => Err(Flaw::Url),
    }
}

fn callable(alloc: Global, url: &Url) -> Result<Address, Flaw>
    ensures { OrStarved flaw.Memory (callable url.now) result }
{
    if url.scheme() == "https" {
        return Err(Flaw::HttpsUrl);
    }
    let Some(host) = url.host_str() else {
        return Err(Flaw::Url);
    };
    if !is_callable(url) {
        return Err(Flaw::Url);
    }
    Ok(address_with(alloc, url, host)?)
}

fn is_callable(url: &Url) -> bool
    ensures { result ≡ is_callable url.now }
{
    url.scheme() == "http" && !has_credentials(url) && url.as_str().len() <= MOST_BYTES
}

fn has_credentials(url: &Url) -> bool
    ensures { result ≡ has_credentials url.now }
{
    !url.username().is_empty() || url.password().is_some()
}

fn address_with(alloc: Global, url: &Url, host: &str) -> Result<Address, Memory>
    ensures { IfOk result (λ address. address ≡ address_with url.now host.now) }
{
    Ok(Address {
        host: Bytes::from_slice(alloc, host.as_bytes())?,
        port: url.port().unwrap_or(DEFAULT_PORT),
        path: Bytes::from_slice(alloc, url.path().as_bytes())?,
        query: Bytes::from_slice(alloc, url.query().unwrap_or("").as_bytes())?,
    })
}

/// The retries after the first attempt.
#[tactic(auto, unfolding(crate::specs::Steps::retries_in))]
pub(crate) fn retries_in(function: &Value) -> Result<u8, Flaw>
    ensures { result ≡ retries_in (view function.now) }
{
    let Some(retries) = retries_member(function) else {
        return Ok(DEFAULT_RETRIES);
    };
    if !retries.is_object() {
        return Err(Flaw::Retries);
    }
    let Some(attempts) = part(retries, "attempts") else {
        return Ok(DEFAULT_RETRIES);
    };
    match whole(attempts, 0, MOST_RETRIES) {
        Some(number) => Ok(number as u8),
        None => Err(Flaw::Retries),
    }
}

fn retries_member(function: &Value) -> Option<&Value>
    ensures { option_map (λ v. view v.now) result ≡ retries_member (view function.now) }
{
    part(step_in(function)?, "retries")
}
