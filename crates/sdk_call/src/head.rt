// The head of a call.
ghost use Rattle.std.specs.Prelude.{◌≡◌, ◌++◌, IfOk, OnOk, codes};
ghost use Rattle.sdk_call.specs.Head.{head, held, host_line, signature_line};

use crate::room::{begun, head_room};
use lists::{Bytes, Memory};
use std::alloc::Global;

/// The port that isn't written.
const HTTP: u16 = 80;

/// The head of a call, with the empty line behind it. `length` is the number of the body's bytes.
/// `signature` is what a key of the application's signs the call with, for the field
/// `X-Inngest-Signature`; no caller has a key yet.
pub fn head_text(
    alloc: Global,
    host: &[u8],
    port: u16,
    path: &[u8],
    length: usize,
    signature: Option<&[u8]>,
) -> Result<Bytes, Memory>
    ensures { IfOk result (λ text. text ≡ head host.now port path.now length (held signature.entry)) }
{
    let mut text = begun(alloc, head_room(host, path, signature), b"POST ")?;
    text.extend_from_slice(path)?;
    text.extend_from_slice(b" HTTP/1.1\r\nHost: ")?;
    push_host(&mut text, host, port)?;
    text.extend_from_slice(b"\r\nContent-Type: application/json\r\nContent-Length: ")?;
    text.push_decimal(length as u64)?;
    text.extend_from_slice(b"\r\nConnection: close\r\n")?;
    push_signature(&mut text, signature)?;
    text.extend_from_slice(b"\r\n")?;
    Ok(text)
}

fn push_host(text: &mut Bytes, host: &[u8], port: u16) -> Result<(), Memory>
    ensures { OnOk result (text.new ≡ text.old ++ host_line host.now port) }
{
    text.extend_from_slice(host)?;
    if port != HTTP {
        text.push(b':')?;
        text.push_decimal(u64::from(port))?;
    }
    Ok(())
}

fn push_signature(text: &mut Bytes, signature: Option<&[u8]>) -> Result<(), Memory>
    ensures { OnOk result (text.new ≡ text.old ++ signature_line (held signature.entry)) }
{
    match signature {
        Some(signature) => push_field(text, signature),
        None => Ok(()),
    }
}

fn push_field(text: &mut Bytes, signature: &[u8]) -> Result<(), Memory>
    ensures { OnOk result (text.new
        ≡ text.old ++ codes "X-Inngest-Signature: " ++ signature.now ++ codes "\r\n") }
{
    text.extend_from_slice(b"X-Inngest-Signature: ")?;
    text.extend_from_slice(signature)?;
    text.extend_from_slice(b"\r\n")
}
