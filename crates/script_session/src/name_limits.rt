//! The names that a script gives, and what an entry computes.

ghost use Rattle.std.specs.Prelude.{◌≡◌, true, IfOk, IfErr, Ok};
ghost use Rattle.alg_names.specs.Name.{spelling};
ghost use Rattle.templates.specs.Nesting.{is_nested_well};
ghost use Rattle.templates.specs.Table.{FaultIs};
ghost use Rattle.dialogues.specs.AllocAndFree.{is_chained};
ghost use Rattle.dialogues.specs.Names.{limited_name, name_read, is_queue_length, takes_length, plan_for};

use alg_names::laws::{computed_tree, one_name};
use alg_names::{Name, NameErr, parse_name};
use alg_registry::{Spec, Wrap};
use kc_base::Errno;
use recorded_calls::Stop;
use std::alloc::Global;
use templates::{BuildErr, Plan, nesting, plan_of};

/// The name within the limits that a text is: ENAMETOOLONG above 127 bytes, otherwise EINVAL.
fn read_limited(alloc: Global, text: &[u8]) -> Result<Name, BuildErr>
    ensures ok { IfOk result (λ t. limited_name text.now ≡ Ok t) }
    ensures err { IfErr result (λ e. FaultIs e (limited_name text.now)) }
    ensures spelled { IfOk result (λ t. spelling t ≡ text.now) }
{
    computed_tree();
    one_name();
    match parse_name(alloc, text) {
        Ok(name) => Ok(name),
        Err(NameErr::TooLong) => Err(BuildErr::Fault(Errno::ENAMETOOLONG)),
        Err(NameErr::Bad(_)) => Err(BuildErr::Fault(Errno::EINVAL)),
        Err(NameErr::TooDeep) => Err(BuildErr::Fault(Errno::EINVAL)),
        Err(NameErr::TooMany) => Err(BuildErr::Fault(Errno::EINVAL)),
        Err(NameErr::Memory) => Err(BuildErr::Memory),
    }
}

/// The name that a script asks for: EINVAL also where `pcrypt` or `cryptd` stands where it may not.
pub fn read_name(alloc: Global, text: &[u8]) -> Result<Name, BuildErr>
    ensures ok { IfOk result (λ t. name_read text.now ≡ Ok t) }
    ensures err { IfErr result (λ e. FaultIs e (name_read text.now)) }
    ensures spelled { IfOk result (λ t. spelling t ≡ text.now) }
    ensures nested { IfOk result (λ t. is_nested_well t ≡ true) }
{
    let name = read_limited(alloc, text)?;
    match nesting(&name) {
        Ok(()) => Ok(name),
        Err(errno) => Err(BuildErr::Fault(errno)),
    }
}

/// Whether a queue may have the length that was given.
pub fn fits_queue(length: Option<u32>) -> bool
    ensures { result ≡ is_queue_length length }
{
    match length {
        Some(length) => 1 <= length && length <= 4096,
        None => true,
    }
}

fn may_have(wrap: Wrap, length: Option<u32>) -> bool
    ensures { result ≡ takes_length wrap length }
{
    match (wrap, length) {
        (Wrap::Cryptd, _) => true,
        (_, length) => length.is_none(),
    }
}

/// What an entry computes as a transform, if it does and may have the length of a queue that was given.
pub fn plan_with(alloc: Global, spec: &Spec, length: Option<u32>) -> Result<Option<Plan>, Stop>
    ensures { IfOk result (λ plan. plan ≡ plan_for spec.now length) }
{
    if !may_have(spec.wrap, length) {
        return Ok(None);
    }
    match read_limited(alloc, spec.driver.as_slice()) {
        Ok(name) => Ok(plan_of(&name).ok()),
        Err(BuildErr::Fault(_)) => Ok(None),
        Err(BuildErr::Memory) => Err(Stop::Memory),
    }
}

/// Whether a driver stands under `cryptd` over `pcrypt`.
pub fn is_chained_driver(driver: &[u8]) -> bool
    ensures { result ≡ is_chained driver.now }
{
    driver.starts_with(b"cryptd(pcrypt(")
}
