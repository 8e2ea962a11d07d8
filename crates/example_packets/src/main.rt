//! Seals packets by AES-GCM and as ESP does, opens them again, and prints what came of it. It is a caller from outside:
//! it knows the cipher crates by their public contracts alone.
#![tactic(auto)]

mod packets;

use aes_gcm::AesGcmError;
use kc_base::Errno;
use packets::{esp_under, mac_of, open_esp, open_packet, seal_and_open, seal_esp, seal_packet};
use std::alloc::Global;

/// An IP packet that asks DNS for the SRV record of a SIP service.
const DATAGRAM: &[u8; 72] = b"\x45\x00\x00\x48\x69\x9a\x00\x00\x80\x11\x4d\xb7\xc0\xa8\x01\x02\
    \xc0\xa8\x01\x01\x0a\x9b\xf1\x56\x38\xd3\x01\x00\x00\x01\x00\x00\x00\x00\x00\x00\
    \x04_sip\x04_udp\x03sip\x09cybercity\x02dk\x00\x00\x21\x00\x01\x01\x02\x02\x01";

fn print_bytes(rt: &impl Print, alloc: Global, what: &str, bytes: &[u8]) -> anyhow::Result<()> {
    let text = hex::encode(alloc, bytes)?;
    println!(rt; "{what} {text}")?;
    Ok(())
}

fn print_opening(rt: &impl Print, opened: Result<(), AesGcmError>) -> anyhow::Result<()> {
    match opened {
        Ok(()) => println!(rt; "opened")?,
        Err(error) => println!(rt; "refused: {error}")?,
    }
    Ok(())
}

fn print_opening_of_esp(rt: &impl Print, opened: Result<(), Errno>) -> anyhow::Result<()> {
    match opened {
        Ok(()) => println!(rt; "opened")?,
        Err(error) => println!(rt; "refused {}", error.name())?,
    }
    Ok(())
}

/// A block of zeros under a key and an IV of zeros: test case 2 of the GCM specification.
fn zeros(rt: &impl Print, alloc: Global) -> anyhow::Result<()> {
    let (key, iv) = ([0; 16], [0; 12]);
    let mut text = [0; 16];
    let mut tag = seal_packet(&key, &iv, &[], &mut text);
    print_bytes(rt, alloc, "gcm ciphertext", &text)?;
    print_bytes(rt, alloc, "gcm tag", &tag)?;
    tag[15] ^= 1;
    print_opening(rt, open_packet(&key, &iv, &[], &mut text, &tag))?;
    tag[15] ^= 1;
    print_opening(rt, open_packet(&key, &iv, &[], &mut text, &tag))?;
    print_bytes(rt, alloc, "gcm plaintext", &text)?;
    print_opening(rt, seal_and_open(&key, &iv, b"header", &mut text))
}

/// A datagram in ESP, with an extended sequence number.
fn esp(rt: &impl Print, alloc: Global) -> anyhow::Result<()> {
    let key = *b"\x4c\x80\xcd\xef\xbb\x5d\x10\xda\x90\x6a\xc7\x3c\x36\x13\xa6\x34";
    let mode = esp_under(&key, *b"\x2e\x44\x3b\x68");
    let iv = *b"\x49\x56\xed\x7e\x3b\x24\x4c\xfe";
    let header = *b"\x00\x00\x43\x21\x87\x65\x43\x21\x00\x00\x00\x00";
    let mut text = *DATAGRAM;
    let tag = seal_esp(&mode, &iv, &header, &mut text);
    print_bytes(rt, alloc, "esp ciphertext", &text)?;
    print_bytes(rt, alloc, "esp tag", &tag)?;
    let mut changed = header;
    changed[7] ^= 1;
    print_opening_of_esp(rt, open_esp(&mode, &iv, &changed, &mut text, &tag))?;
    print_opening_of_esp(rt, open_esp(&mode, &iv, &header, &mut text, &tag))?;
    print_bytes(rt, alloc, "esp plaintext", &text)
}

fn main(rt: HostRuntime) -> anyhow::Result<()> {
    let alloc = rt.alloc();
    zeros(&rt, alloc)?;
    esp(&rt, alloc)?;
    // test case 1 of RFC 4231
    print_bytes(&rt, alloc, "hmac", &mac_of(&[0x0b; 20], b"Hi There"))
}
