//! What is read.
use crate::kind::Kind;
use service_core::Octets;
use std::alloc::{AllocError, Global};

const SMALL: &[u8] = b"GET /index.html HTTP/1.1\r\nHost: www.example.com\r\nA: bcde\r\n\r\n";

const BROWSER: &[u8] =
    b"GET /blog/2026/11/a-verified-server.html?from=front&page=2 HTTP/1.1\r\nHost: www.example.com\r\nUser-Agent: Mozilla/5.0 (X11; Linux x86_64; rv:128.0) Gecko/20100101 Firefox/128.0\r\nAccept: text/html,application/xhtml+xml,application/xml;q=0.9,image/avif,image/webp,*/*;q=0.8\r\nAccept-Language: en-US,en;q=0.5\r\nAccept-Encoding: gzip, deflate, br, zstd\r\nReferer: https://www.example.com/blog/\r\nConnection: keep-alive\r\nCookie: session=0123456789abcdef0123456789abcdef; theme=dark\r\nUpgrade-Insecure-Requests: 1\r\nSec-Fetch-Dest: document\r\nSec-Fetch-Mode: navigate\r\nSec-Fetch-Site: same-origin\r\nPriority: u=0, i\r\n\r\n";

const CHUNKED: &[u8] =
    b"POST /upload HTTP/1.1\r\nHost: www.example.com\r\nTransfer-Encoding: chunked\r\n\r\n";

const SIZED: &[u8] =
    b"POST /upload HTTP/1.1\r\nHost: www.example.com\r\nContent-Length: 1000000\r\n\r\n";

// The text between these, so many times over.
fn repeated(
    alloc: Global,
    front: &[u8],
    text: &[u8],
    times: usize,
    back: &[u8],
) -> Result<Octets, AllocError> {
    let mut out = Octets::of(alloc, front)?;
    for _ in 0..times {
        out.push_all(text)?;
    }
    out.push_all(back)?;
    Ok(out)
}

// A GET with so many short headers.
fn with_headers(alloc: Global, count: usize) -> Result<Octets, AllocError> {
    repeated(alloc, b"GET / HTTP/1.1\r\n", b"A: b\r\n", count, b"\r\n")
}

fn in_hundreds(alloc: Global) -> Result<Octets, AllocError> {
    let chunk = repeated(alloc, b"64\r\n", b"x", 100, b"\r\n")?;
    repeated(alloc, CHUNKED, chunk.as_bytes(), 10_000, b"0\r\n\r\n")
}

/// The input of a kind.
pub fn input_of(alloc: Global, kind: Kind) -> Result<Octets, AllocError> {
    match kind {
        Kind::Small => Octets::of(alloc, SMALL),
        Kind::Browser => Octets::of(alloc, BROWSER),
        Kind::Few => with_headers(alloc, 6),
        Kind::Many => with_headers(alloc, 96),
        Kind::Long => repeated(alloc, b"GET / HTTP/1.1\r\nA: ", b"y", 31_977, b"\r\n\r\n"),
        Kind::Sized => repeated(alloc, SIZED, b"x", 1_000_000, b""),
        Kind::Ones => repeated(alloc, CHUNKED, b"1\r\nx\r\n", 1_000_000, b"0\r\n\r\n"),
        Kind::Hundreds => in_hundreds(alloc),
    }
}
