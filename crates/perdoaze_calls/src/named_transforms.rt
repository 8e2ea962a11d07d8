//! Transforms by name.

ghost use Rattle.std.specs.Prelude.{◌≡◌};
ghost use Rattle.std.specs.Str.{bytes_eq};
ghost use Rattle.perdoaze_calls.specs.Names.{plan_named, within, algorithm_in, Plans, PlansBoth, Begins};

use crate::slot::Slot;
use crate::status::Status;
use crate::transform::Transform;
use alg_names::{NameErr, parse_name};
use std::alloc::Global;
use templates::{AesForm, GhashForm, Plan, plan_of};

fn is(name: &[u8], text: &[u8]) -> bool
    ensures { result ≡ bytes_eq name.now text.now }
{
    name == text
}

/// What stands in "WORD(..)", where the name is so, and otherwise the name. `word` has the bracket.
fn within<'a>(name: &'a [u8], word: &[u8]) -> &'a [u8]
    ensures { result.now ≡ within word.now name.now }
{
    if name.len() < 8 {
        return name;
    }
    let (front, rest) = name.split_at(7);
    let (inner, end) = rest.split_at(name.len() - 8);
    if !is(front, word) {
        return name;
    }
    if is(end, b")") { inner } else { name }
}

/// The name of an algorithm, without `pcrypt`, `cryptd` or both around it: they run it at once.
fn algorithm_in(name: &[u8]) -> &[u8]
    ensures { result.now ≡ algorithm_in name.now }
{
    within(within(name, b"cryptd("), b"pcrypt(")
}

/// The plan of an algorithm's name: that of its fastest driver.
fn plan_by_algorithm(name: &[u8]) -> Option<Plan>
    ensures { result ≡ plan_named name.now }
{
    if is(name, b"cbc(aes)") {
        Some(Plan::Cbc(AesForm::AesLanes))
    } else if is(name, b"ctr(aes)") {
        Some(Plan::Ctr(AesForm::AesLanes))
    } else if is(name, b"rfc3686(ctr(aes))") {
        Some(Plan::Rfc3686(AesForm::AesLanes))
    } else if is(name, b"xts(aes)") {
        Some(Plan::Xts(AesForm::AesLanes))
    } else if is(name, b"gcm(aes)") {
        Some(Plan::Gcm(AesForm::AesLanes, GhashForm::GhashTable))
    } else if is(name, b"rfc4106(gcm(aes))") {
        Some(Plan::Rfc4106(AesForm::AesLanes, GhashForm::GhashTable))
    } else if is(name, b"ccm(aes)") {
        Some(Plan::Ccm(AesForm::AesLanes))
    } else if is(name, b"hmac(sha256)") {
        Some(Plan::Hmac)
    } else if is(name, b"cmac(aes)") {
        Some(Plan::Cmac(AesForm::AesLanes))
    } else if is(name, b"authenc(hmac(sha256),cbc(aes))") {
        Some(Plan::AuthencCbc(AesForm::AesLanes))
    } else if is(name, b"authenc(hmac(sha256),ctr(aes))") {
        Some(Plan::AuthencCtr(AesForm::AesLanes))
    } else if is(name, b"authenc(hmac(sha256),rfc3686(ctr(aes)))") {
        Some(Plan::AuthencRfc3686(AesForm::AesLanes))
    } else if is(name, b"authenc(hmac(sha256),xts(aes))") {
        Some(Plan::AuthencXts(AesForm::AesLanes))
    } else {
        None
    }
}

/// The plan of a driver's name.
fn plan_by_driver(alloc: Global, name: &[u8]) -> Result<Plan, Status>
    ensures { Plans name.now result }
{
    match parse_name(alloc, name) {
        Ok(driver) => match plan_of(&driver) {
            Ok(plan) => Ok(plan),
            Err(_) => Err(Status::NoName),
        },
        Err(NameErr::Memory) => Err(Status::NoMemory),
        Err(_) => Err(Status::Invalid),
    }
}

/// The plan of a name.
fn plan_by_name(alloc: Global, name: &[u8]) -> Result<Plan, Status>
    ensures { PlansBoth name.now result }
{
    match plan_by_algorithm(algorithm_in(name)) {
        Some(plan) => Ok(plan),
        None => plan_by_driver(alloc, name),
    }
}

/// Makes a transform in the place, in place of the one that was there.
pub fn init(slot: &mut Slot, alloc: Global, name: &[u8]) -> Status
    ensures { Begins slot.new.handle.value name.now result }
{
    drop(slot.take(alloc));
    match plan_by_name(alloc, name) {
        Err(status) => status,
        Ok(plan) => match Box::new(alloc, Transform::new(plan)) {
            Ok(made) => {
                slot.fill(made);
                Status::Done
            }
            Err(_) => Status::NoMemory,
        },
    }
}
