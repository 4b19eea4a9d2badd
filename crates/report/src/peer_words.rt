//! A peer in words.
ghost use Rattle.std.specs.Prelude.{◌≡◌, ◌<◌, ◌++◌, ◌^◌, IfOk, OnOk};
ghost use Rattle.report.specs.Peers.{next_group, peer_text, port_text, v4_text, v6_text};
ghost use Rattle.service_core.specs.declared.peer.Peer.TheVariants.{V4, V6};

use crate::hex::push_group;
use service_core::{Octets, Peer};
use std::alloc::{AllocError, Global};

/// The peer in words: `a.b.c.d:port`, `[g:g:g:g:g:g:g:g]:port`, `local` or `unknown`.
pub fn peer_text(alloc: Global, peer: Peer) -> Result<Octets, AllocError>
    ensures { IfOk result (λ text. text ≡ peer_text peer) }
{
    match peer {
        Peer::V4 { host, port } => v4_text(alloc, host, port),
        Peer::V6 { host, port } => v6_text(alloc, host, port),
        Peer::Local => Octets::of(alloc, b"local"),
        Peer::Unknown => Octets::of(alloc, b"unknown"),
    }
}

fn v4_text(alloc: Global, host: u32, port: u16) -> Result<Octets, AllocError>
    ensures { IfOk result (λ text. text ≡ v4_text host ++ port_text port) }
{
    let a = host / 16_777_216;
    let b = host / 65_536 % 256;
    let c = host / 256 % 256;
    let d = host % 256;
    let text = format!(in alloc; "{a}.{b}.{c}.{d}")?;
    let mut out = Octets::of(alloc, text.as_bytes())?;
    push_port(alloc, &mut out, port)?;
    Ok(out)
}

fn push_port(alloc: Global, out: &mut Octets, port: u16) -> Result<(), AllocError>
    ensures { OnOk result (out.new ≡ out.old ++ port_text port) }
{
    let text = format!(in alloc; ":{port}")?;
    out.push_all(text.as_bytes())
}

#[tactic(auto, using(std::proofs::Common::append_assoc))]
fn v6_text(alloc: Global, host: u128, port: u16) -> Result<Octets, AllocError>
    ensures { IfOk result (λ text. text ≡ peer_text (V6 host port)) }
{
    let mut out = Octets::of(alloc, b"[")?;
    push_address(&mut out, host)?;
    out.push_all(b"]")?;
    push_port(alloc, &mut out, port)?;
    Ok(out)
}

// Eight groups with colons between them.
fn push_address(out: &mut Octets, host: u128) -> Result<(), AllocError>
    ensures { OnOk result (out.new ≡ out.old ++ v6_text host) }
{
    push_group(
        out,
        (host / 0x1_0000_0000_0000_0000_0000_0000_0000 % 65_536) as u16,
    )?;
    push_next(out, host, 0x1_0000_0000_0000_0000_0000_0000)?;
    push_next(out, host, 0x1_0000_0000_0000_0000_0000)?;
    push_next(out, host, 0x1_0000_0000_0000_0000)?;
    push_next(out, host, 0x1_0000_0000_0000)?;
    push_next(out, host, 0x1_0000_0000)?;
    push_next(out, host, 0x1_0000)?;
    push_next(out, host, 1)?;
    Ok(())
}

// A colon and the group that begins at the power of 2.
fn push_next(out: &mut Octets, host: u128, power: u128) -> Result<(), AllocError>
    requires { 0 < power }
    ensures { OnOk result (out.new ≡ out.old ++ next_group host power) }
{
    out.push_all(b":")?;
    push_group(out, (host / power % 65_536) as u16)
}
