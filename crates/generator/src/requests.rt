//! The requests of a connection.
ghost use Rattle.std.specs.Prelude.{◌≡◌, ◌++◌, IfOk, OnOk};
ghost use Rattle.generator.specs.Generator.{get_text, on_connection, post_text, preflight_text, request, request_number, requests};

use crate::generator::Generator;
use service_core::Octets;
use std::alloc::{AllocError, Global};

/// The bytes of a connection's requests, and how many they are.
#[derive(Drop)]
pub(crate) struct Requests {
    pub(crate) bytes: Octets,
    pub(crate) count: u64,
}

/// The requests of the next connection, from one to four.
pub(crate) fn next_requests(
    alloc: Global,
    generator: &mut Generator,
) -> Result<Requests, AllocError>
    ensures bytes { IfOk result (λ made. made.bytes ≡ (on_connection generator.old.state).0) }
    ensures count { IfOk result (λ made. made.count ≡ request_number generator.old.state) }
    ensures state { OnOk result (generator.new.state ≡ (on_connection generator.old.state).1) }
{
    let count = u64::from(1 + generator.draw() % 4);
    let mut bytes = Octets::new(alloc);
    push_requests(alloc, generator, &mut bytes, count)?;
    Ok(Requests { bytes, count })
}

// Appends so many requests.
fn push_requests(
    alloc: Global,
    generator: &mut Generator,
    bytes: &mut Octets,
    count: u64,
) -> Result<(), AllocError>
    ensures bytes { OnOk result (bytes.new ≡ bytes.old ++ (requests count generator.old.state).0) }
    ensures state { OnOk result (generator.new.state ≡ (requests count generator.old.state).1) }
{
    for _done in 0..count {
        push_request(alloc, generator, bytes)?;
    }
    Ok(())
}

// Appends the next request.
fn push_request(
    alloc: Global,
    generator: &mut Generator,
    bytes: &mut Octets,
) -> Result<(), AllocError>
    ensures bytes { OnOk result (bytes.new ≡ bytes.old ++ (request generator.old.state).0) }
    ensures state { OnOk result (generator.new.state ≡ (request generator.old.state).1) }
{
    let kind = generator.draw() % 3;
    match kind {
        0 => push_get(bytes),
        1 => push_post(alloc, bytes, generator.draw() % 64),
        _ => push_preflight(bytes),
    }
}

fn push_get(bytes: &mut Octets) -> Result<(), AllocError>
    ensures { OnOk result (bytes.new ≡ bytes.old ++ get_text) }
{
    bytes.push_all(b"GET / HTTP/1.1\r\nOrigin: https://gen.example\r\n\r\n")
}

// Appends a request with a body of so many letters.
fn push_post(alloc: Global, bytes: &mut Octets, size: u32) -> Result<(), AllocError>
    ensures { OnOk result (bytes.new ≡ bytes.old ++ post_text size) }
{
    let head = format!(in alloc;
        "POST / HTTP/1.1\r\nOrigin: https://gen.example\r\nContent-Length: {size}\r\n\r\n"
    )?;
    bytes.push_all(head.as_bytes())?;
    let body = vec![in alloc; b'x'; size as usize]?;
    bytes.push_all(&body)
}

fn push_preflight(bytes: &mut Octets) -> Result<(), AllocError>
    ensures { OnOk result (bytes.new ≡ bytes.old ++ preflight_text) }
{
    bytes.push_all(
        b"OPTIONS / HTTP/1.1\r\nOrigin: https://gen.example\r\nAccess-Control-Request-Method: PUT\r\n\r\n",
    )
}
