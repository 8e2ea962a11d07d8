//! The commands, a function a row.

ghost use Rattle.std.specs.Prelude.{map};
ghost use Rattle.script_text.specs.Arguments.{Reads};
ghost use Rattle.script_text.specs.Commands.{aes_row, register_row, unregister_row, probe_row, alloc_row, key_row, authsize_row, aead_row, mac_row, bulk_row, mask_row, label_row, refs_row, list_row, listing_command_of, pipeline_command_of, request_command_of, transform_command_of, command_of};
ghost use Rattle.script_text.specs.AeadRequests.{request_of};
ghost use Rattle.script_text.specs.declared.commands.Command.TheVariants as says;

use crate::arguments::{
    ReadError, backlog, hex_bytes, label, lone_label, mask, names, number, optional_number,
    segments,
};
use crate::commands::Command;
use kc_base::Bytes;
use sg_walk::Segs;
use std::alloc::Global;

fn aes_command(alloc: Global, args: &[&[u8]]) -> Result<Command, ReadError>
    ensures { Reads result (aes_row (map (λ token. token.now) args.now)) }
{
    let [key, block] = args else {
        return Err(ReadError::Malformed);
    };
    Ok(Command::Aes {
        key: hex_bytes(alloc, key)?,
        block: hex_bytes(alloc, block)?,
    })
}

fn register_command(alloc: Global, args: &[&[u8]]) -> Result<Command, ReadError>
    ensures { Reads result (register_row (map (λ token. token.now) args.now)) }
{
    let [driver, priority] = args else {
        return Err(ReadError::Malformed);
    };
    Ok(Command::Register {
        priority: number(priority)?,
        driver: Bytes::copy_of(alloc, driver)?,
    })
}

fn unregister_command(alloc: Global, args: &[&[u8]]) -> Result<Command, ReadError>
    ensures { Reads result (unregister_row (map (λ token. token.now) args.now)) }
{
    let [driver] = args else {
        return Err(ReadError::Malformed);
    };
    Ok(Command::Unregister {
        driver: Bytes::copy_of(alloc, driver)?,
    })
}

fn probe_command(alloc: Global, args: &[&[u8]]) -> Result<Command, ReadError>
    ensures { Reads result (probe_row (map (λ token. token.now) args.now)) }
{
    Ok(Command::Probe {
        names: names(alloc, args)?,
    })
}

fn alloc_command(alloc: Global, args: &[&[u8]]) -> Result<Command, ReadError>
    ensures { Reads result (alloc_row (map (λ token. token.now) args.now)) }
{
    let [transform, name, more @ ..] = args else {
        return Err(ReadError::Malformed);
    };
    Ok(Command::Alloc {
        label: label(alloc, transform)?,
        length: optional_number(more)?,
        name: Bytes::copy_of(alloc, name)?,
    })
}

fn key_command(alloc: Global, args: &[&[u8]]) -> Result<Command, ReadError>
    ensures { Reads result (key_row (map (λ token. token.now) args.now)) }
{
    let [transform, key] = args else {
        return Err(ReadError::Malformed);
    };
    Ok(Command::Key {
        label: label(alloc, transform)?,
        key: hex_bytes(alloc, key)?,
    })
}

fn authsize_command(alloc: Global, args: &[&[u8]]) -> Result<Command, ReadError>
    ensures { Reads result (authsize_row (map (λ token. token.now) args.now)) }
{
    let [transform, size] = args else {
        return Err(ReadError::Malformed);
    };
    Ok(Command::Authsize {
        label: label(alloc, transform)?,
        size: number(size)?,
    })
}

/// What the arguments of `enc` and `dec` ask for.
#[derive(Drop)]
struct AeadRequest {
    label: Bytes,
    iv: Bytes,
    aad: Bytes,
    text: Segs,
    backlog: bool,
}

fn aead_request(alloc: Global, args: &[&[u8]]) -> Result<AeadRequest, ReadError>
    ensures { Reads result (aead_row request_of (map (λ token. token.now) args.now)) }
{
    let [transform, iv, aad, text, more @ ..] = args else {
        return Err(ReadError::Malformed);
    };
    Ok(AeadRequest {
        label: label(alloc, transform)?,
        iv: hex_bytes(alloc, iv)?,
        aad: hex_bytes(alloc, aad)?,
        text: segments(alloc, text)?,
        backlog: backlog(more)?,
    })
}

fn enc_command(alloc: Global, args: &[&[u8]]) -> Result<Command, ReadError>
    ensures { Reads result (aead_row says.Enc (map (λ token. token.now) args.now)) }
{
    let asked = aead_request(alloc, args)?;
    Ok(Command::Enc {
        label: asked.label,
        iv: asked.iv,
        aad: asked.aad,
        text: asked.text,
        backlog: asked.backlog,
    })
}

fn dec_command(alloc: Global, args: &[&[u8]]) -> Result<Command, ReadError>
    ensures { Reads result (aead_row says.Dec (map (λ token. token.now) args.now)) }
{
    let asked = aead_request(alloc, args)?;
    Ok(Command::Dec {
        label: asked.label,
        iv: asked.iv,
        aad: asked.aad,
        text: asked.text,
        backlog: asked.backlog,
    })
}

fn mac_command(alloc: Global, args: &[&[u8]]) -> Result<Command, ReadError>
    ensures { Reads result (mac_row (map (λ token. token.now) args.now)) }
{
    let [transform, text, more @ ..] = args else {
        return Err(ReadError::Malformed);
    };
    Ok(Command::Mac {
        label: label(alloc, transform)?,
        text: segments(alloc, text)?,
        backlog: backlog(more)?,
    })
}

fn bulk_command(alloc: Global, args: &[&[u8]]) -> Result<Command, ReadError>
    ensures { Reads result (bulk_row (map (λ token. token.now) args.now)) }
{
    let [transform, size, seed] = args else {
        return Err(ReadError::Malformed);
    };
    Ok(Command::Bulk {
        label: label(alloc, transform)?,
        size: number(size)?,
        seed: number(seed)?,
    })
}

fn mask_command(alloc: Global, args: &[&[u8]]) -> Result<Command, ReadError>
    ensures { Reads result (mask_row (map (λ token. token.now) args.now)) }
{
    let [transform, bits] = args else {
        return Err(ReadError::Malformed);
    };
    Ok(Command::Mask {
        label: label(alloc, transform)?,
        mask: mask(alloc, bits)?,
    })
}

fn hold_command(alloc: Global, args: &[&[u8]]) -> Result<Command, ReadError>
    ensures { Reads result (label_row says.Hold (map (λ token. token.now) args.now)) }
{
    Ok(Command::Hold {
        label: lone_label(alloc, args)?,
    })
}

fn go_command(alloc: Global, args: &[&[u8]]) -> Result<Command, ReadError>
    ensures { Reads result (label_row says.Go (map (λ token. token.now) args.now)) }
{
    Ok(Command::Go {
        label: lone_label(alloc, args)?,
    })
}

fn poll_command(alloc: Global, args: &[&[u8]]) -> Result<Command, ReadError>
    ensures { Reads result (label_row says.Poll (map (λ token. token.now) args.now)) }
{
    Ok(Command::Poll {
        label: lone_label(alloc, args)?,
    })
}

fn drain_command(alloc: Global, args: &[&[u8]]) -> Result<Command, ReadError>
    ensures { Reads result (label_row says.Drain (map (λ token. token.now) args.now)) }
{
    Ok(Command::Drain {
        label: lone_label(alloc, args)?,
    })
}

fn free_command(alloc: Global, args: &[&[u8]]) -> Result<Command, ReadError>
    ensures { Reads result (label_row says.Free (map (λ token. token.now) args.now)) }
{
    Ok(Command::Free {
        label: lone_label(alloc, args)?,
    })
}

fn refs_command(alloc: Global, args: &[&[u8]]) -> Result<Command, ReadError>
    ensures { Reads result (refs_row (map (λ token. token.now) args.now)) }
{
    let [driver] = args else {
        return Err(ReadError::Malformed);
    };
    Ok(Command::Refs {
        driver: Bytes::copy_of(alloc, driver)?,
    })
}

fn list_command(args: &[&[u8]]) -> Result<Command, ReadError>
    ensures { Reads result (list_row (map (λ token. token.now) args.now)) }
{
    if !args.is_empty() {
        return Err(ReadError::Malformed);
    }
    Ok(Command::List)
}

// A command that shows what the registry holds.
fn read_listing_command(alloc: Global, name: &[u8], args: &[&[u8]]) -> Result<Command, ReadError>
    ensures { Reads result (listing_command_of name.now (map (λ token. token.now) args.now)) }
{
    if name == b"refs".as_slice() {
        refs_command(alloc, args)
    } else if name == b"list".as_slice() {
        list_command(args)
    } else {
        Err(ReadError::Malformed)
    }
}

// A command for a transform's pipeline, or else one of those above.
fn read_pipeline_command(alloc: Global, name: &[u8], args: &[&[u8]]) -> Result<Command, ReadError>
    ensures { Reads result (pipeline_command_of name.now (map (λ token. token.now) args.now)) }
{
    if name == b"mask".as_slice() {
        mask_command(alloc, args)
    } else if name == b"hold".as_slice() {
        hold_command(alloc, args)
    } else if name == b"go".as_slice() {
        go_command(alloc, args)
    } else if name == b"poll".as_slice() {
        poll_command(alloc, args)
    } else if name == b"drain".as_slice() {
        drain_command(alloc, args)
    } else if name == b"free".as_slice() {
        free_command(alloc, args)
    } else {
        read_listing_command(alloc, name, args)
    }
}

// A command with a request for a transform, or else one of those above.
fn read_request_command(alloc: Global, name: &[u8], args: &[&[u8]]) -> Result<Command, ReadError>
    ensures { Reads result (request_command_of name.now (map (λ token. token.now) args.now)) }
{
    if name == b"enc".as_slice() {
        enc_command(alloc, args)
    } else if name == b"dec".as_slice() {
        dec_command(alloc, args)
    } else if name == b"mac".as_slice() {
        mac_command(alloc, args)
    } else if name == b"bulk".as_slice() {
        bulk_command(alloc, args)
    } else {
        read_pipeline_command(alloc, name, args)
    }
}

// A command that makes a transform, or sets its key or tag, or else one of those above.
fn read_transform_command(alloc: Global, name: &[u8], args: &[&[u8]]) -> Result<Command, ReadError>
    ensures { Reads result (transform_command_of name.now (map (λ token. token.now) args.now)) }
{
    if name == b"alloc".as_slice() {
        alloc_command(alloc, args)
    } else if name == b"key".as_slice() {
        key_command(alloc, args)
    } else if name == b"authsize".as_slice() {
        authsize_command(alloc, args)
    } else {
        read_request_command(alloc, name, args)
    }
}

/// The command of a name and its arguments.
pub fn read_command(alloc: Global, name: &[u8], args: &[&[u8]]) -> Result<Command, ReadError>
    ensures { Reads result (command_of name.now (map (λ token. token.now) args.now)) }
{
    if name == b"aes".as_slice() {
        aes_command(alloc, args)
    } else if name == b"register".as_slice() {
        register_command(alloc, args)
    } else if name == b"unregister".as_slice() {
        unregister_command(alloc, args)
    } else if name == b"probe".as_slice() {
        probe_command(alloc, args)
    } else {
        read_transform_command(alloc, name, args)
    }
}
