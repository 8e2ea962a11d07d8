//! The names and sizes of plans, and the list of all drivers.

ghost use Rattle.std.specs.Prelude.{◌≡◌, ◌≤◌, ◌+◌, ◌/◌, ◌<◌, length, slice_get, Some};
ghost use Rattle.alg_names.specs.Name.{spelling};
ghost use Rattle.templates.specs.declared.driver_plans.AesForm.TheVariants as form;
ghost use Rattle.templates.specs.declared.driver_plans.Plan.TheVariants as plan;
ghost use Rattle.transforms.specs.Drivers.{driver_of};
ghost use Rattle.transforms.specs.InPlace.{mac_size};
ghost use Rattle.transforms.specs.Plans.{kind_of, iv_size, tag_size_of};
ghost use Rattle.perdoaze_calls.specs.Infos.{algorithm_of, aes_priority, ghash_priority, priority_of, kind_number, block_size_of, least_key, greatest_key, told_tag, padded, IsInfo, listed, Lists, Tells};

use crate::info::Info;
use crate::requests::copy_front;
use crate::slot::Slot;
use crate::status::Status;
use std::alloc::Global;
use templates::{AesForm, GhashForm, Plan};
use transforms::largest_tag_size;

/// The name of the algorithm.
fn algorithm_of(plan: &Plan) -> &'static [u8]
    ensures name { result.now ≡ algorithm_of plan.now }
    ensures short { length result.now ≤ 127 }
{
    match *plan {
        Plan::Cbc(_) => b"cbc(aes)",
        Plan::Ctr(_) => b"ctr(aes)",
        Plan::Rfc3686(_) => b"rfc3686(ctr(aes))",
        Plan::Xts(_) => b"xts(aes)",
        Plan::Gcm(..) => b"gcm(aes)",
        Plan::Rfc4106(..) => b"rfc4106(gcm(aes))",
        Plan::Ccm(_) => b"ccm(aes)",
        Plan::Hmac => b"hmac(sha256)",
        Plan::Cmac(_) => b"cmac(aes)",
        Plan::AuthencCbc(_) => b"authenc(hmac(sha256),cbc(aes))",
        Plan::AuthencCtr(_) => b"authenc(hmac(sha256),ctr(aes))",
        Plan::AuthencRfc3686(_) => b"authenc(hmac(sha256),rfc3686(ctr(aes)))",
        Plan::AuthencXts(_) => b"authenc(hmac(sha256),xts(aes))",
    }
}

fn authenc_cbc(aes: AesForm) -> &'static [u8]
    ensures name { result.now ≡ spelling (driver_of (plan.AuthencCbc aes)) }
    ensures short { length result.now ≤ 127 }
{
    match aes {
        AesForm::AesLanes => b"authenc(hmac(sha256-generic),cbc(aes-lanes))",
        AesForm::AesTable => b"authenc(hmac(sha256-generic),cbc(aes-table))",
        AesForm::AesGeneric => b"authenc(hmac(sha256-generic),cbc(aes-generic))",
    }
}

fn authenc_ctr(aes: AesForm) -> &'static [u8]
    ensures name { result.now ≡ spelling (driver_of (plan.AuthencCtr aes)) }
    ensures short { length result.now ≤ 127 }
{
    match aes {
        AesForm::AesLanes => b"authenc(hmac(sha256-generic),ctr(aes-lanes))",
        AesForm::AesTable => b"authenc(hmac(sha256-generic),ctr(aes-table))",
        AesForm::AesGeneric => b"authenc(hmac(sha256-generic),ctr(aes-generic))",
    }
}

fn authenc_rfc3686(aes: AesForm) -> &'static [u8]
    ensures name { result.now ≡ spelling (driver_of (plan.AuthencRfc3686 aes)) }
    ensures short { length result.now ≤ 127 }
{
    match aes {
        AesForm::AesLanes => b"authenc(hmac(sha256-generic),rfc3686(ctr(aes-lanes)))",
        AesForm::AesTable => b"authenc(hmac(sha256-generic),rfc3686(ctr(aes-table)))",
        AesForm::AesGeneric => b"authenc(hmac(sha256-generic),rfc3686(ctr(aes-generic)))",
    }
}

fn authenc_xts(aes: AesForm) -> &'static [u8]
    ensures name { result.now ≡ spelling (driver_of (plan.AuthencXts aes)) }
    ensures short { length result.now ≤ 127 }
{
    match aes {
        AesForm::AesLanes => b"authenc(hmac(sha256-generic),xts(aes-lanes))",
        AesForm::AesTable => b"authenc(hmac(sha256-generic),xts(aes-table))",
        AesForm::AesGeneric => b"authenc(hmac(sha256-generic),xts(aes-generic))",
    }
}

fn gcm_lanes(ghash: GhashForm) -> &'static [u8]
    ensures name { result.now ≡ spelling (driver_of (plan.Gcm form.AesLanes ghash)) }
    ensures short { length result.now ≤ 127 }
{
    match ghash {
        GhashForm::GhashTable => b"gcm_base(ctr(aes-lanes),ghash-table)",
        GhashForm::GhashGeneric => b"gcm_base(ctr(aes-lanes),ghash-generic)",
    }
}

fn gcm_table(ghash: GhashForm) -> &'static [u8]
    ensures name { result.now ≡ spelling (driver_of (plan.Gcm form.AesTable ghash)) }
    ensures short { length result.now ≤ 127 }
{
    match ghash {
        GhashForm::GhashTable => b"gcm_base(ctr(aes-table),ghash-table)",
        GhashForm::GhashGeneric => b"gcm_base(ctr(aes-table),ghash-generic)",
    }
}

fn gcm_generic(ghash: GhashForm) -> &'static [u8]
    ensures name { result.now ≡ spelling (driver_of (plan.Gcm form.AesGeneric ghash)) }
    ensures short { length result.now ≤ 127 }
{
    match ghash {
        GhashForm::GhashTable => b"gcm_base(ctr(aes-generic),ghash-table)",
        GhashForm::GhashGeneric => b"gcm_base(ctr(aes-generic),ghash-generic)",
    }
}

fn gcm(aes: AesForm, ghash: GhashForm) -> &'static [u8]
    ensures name { result.now ≡ spelling (driver_of (plan.Gcm aes ghash)) }
    ensures short { length result.now ≤ 127 }
{
    match aes {
        AesForm::AesLanes => gcm_lanes(ghash),
        AesForm::AesTable => gcm_table(ghash),
        AesForm::AesGeneric => gcm_generic(ghash),
    }
}

fn rfc4106_lanes(ghash: GhashForm) -> &'static [u8]
    ensures name { result.now ≡ spelling (driver_of (plan.Rfc4106 form.AesLanes ghash)) }
    ensures short { length result.now ≤ 127 }
{
    match ghash {
        GhashForm::GhashTable => b"rfc4106(gcm_base(ctr(aes-lanes),ghash-table))",
        GhashForm::GhashGeneric => b"rfc4106(gcm_base(ctr(aes-lanes),ghash-generic))",
    }
}

fn rfc4106_table(ghash: GhashForm) -> &'static [u8]
    ensures name { result.now ≡ spelling (driver_of (plan.Rfc4106 form.AesTable ghash)) }
    ensures short { length result.now ≤ 127 }
{
    match ghash {
        GhashForm::GhashTable => b"rfc4106(gcm_base(ctr(aes-table),ghash-table))",
        GhashForm::GhashGeneric => b"rfc4106(gcm_base(ctr(aes-table),ghash-generic))",
    }
}

fn rfc4106_generic(ghash: GhashForm) -> &'static [u8]
    ensures name { result.now ≡ spelling (driver_of (plan.Rfc4106 form.AesGeneric ghash)) }
    ensures short { length result.now ≤ 127 }
{
    match ghash {
        GhashForm::GhashTable => b"rfc4106(gcm_base(ctr(aes-generic),ghash-table))",
        GhashForm::GhashGeneric => b"rfc4106(gcm_base(ctr(aes-generic),ghash-generic))",
    }
}

fn rfc4106(aes: AesForm, ghash: GhashForm) -> &'static [u8]
    ensures name { result.now ≡ spelling (driver_of (plan.Rfc4106 aes ghash)) }
    ensures short { length result.now ≤ 127 }
{
    match aes {
        AesForm::AesLanes => rfc4106_lanes(ghash),
        AesForm::AesTable => rfc4106_table(ghash),
        AesForm::AesGeneric => rfc4106_generic(ghash),
    }
}

/// The name of a driver.
fn driver_of(plan: &Plan) -> &'static [u8]
    ensures name { result.now ≡ spelling (driver_of plan.now) }
    ensures short { length result.now ≤ 127 }
{
    match *plan {
        Plan::Cbc(AesForm::AesLanes) => b"cbc(aes-lanes)",
        Plan::Cbc(AesForm::AesTable) => b"cbc(aes-table)",
        Plan::Cbc(AesForm::AesGeneric) => b"cbc(aes-generic)",
        Plan::Ctr(AesForm::AesLanes) => b"ctr(aes-lanes)",
        Plan::Ctr(AesForm::AesTable) => b"ctr(aes-table)",
        Plan::Ctr(AesForm::AesGeneric) => b"ctr(aes-generic)",
        Plan::Rfc3686(AesForm::AesLanes) => b"rfc3686(ctr(aes-lanes))",
        Plan::Rfc3686(AesForm::AesTable) => b"rfc3686(ctr(aes-table))",
        Plan::Rfc3686(AesForm::AesGeneric) => b"rfc3686(ctr(aes-generic))",
        Plan::Xts(AesForm::AesLanes) => b"xts(aes-lanes)",
        Plan::Xts(AesForm::AesTable) => b"xts(aes-table)",
        Plan::Xts(AesForm::AesGeneric) => b"xts(aes-generic)",
        Plan::Ccm(AesForm::AesLanes) => b"ccm(aes-lanes)",
        Plan::Ccm(AesForm::AesTable) => b"ccm(aes-table)",
        Plan::Ccm(AesForm::AesGeneric) => b"ccm(aes-generic)",
        Plan::Cmac(AesForm::AesLanes) => b"cmac(aes-lanes)",
        Plan::Cmac(AesForm::AesTable) => b"cmac(aes-table)",
        Plan::Cmac(AesForm::AesGeneric) => b"cmac(aes-generic)",
        Plan::AuthencCbc(aes) => authenc_cbc(aes),
        Plan::AuthencCtr(aes) => authenc_ctr(aes),
        Plan::AuthencRfc3686(aes) => authenc_rfc3686(aes),
        Plan::AuthencXts(aes) => authenc_xts(aes),
        Plan::Gcm(aes, ghash) => gcm(aes, ghash),
        Plan::Rfc4106(aes, ghash) => rfc4106(aes, ghash),
        Plan::Hmac => b"hmac(sha256-generic)",
    }
}

fn aes_priority(aes: AesForm) -> u32
    ensures { result ≡ aes_priority aes }
{
    match aes {
        AesForm::AesGeneric => 100,
        AesForm::AesTable => 200,
        AesForm::AesLanes => 300,
    }
}

fn ghash_priority(ghash: GhashForm) -> u32
    ensures { result ≡ ghash_priority ghash }
{
    match ghash {
        GhashForm::GhashGeneric => 100,
        GhashForm::GhashTable => 200,
    }
}

fn gcm_priority(aes: AesForm, ghash: GhashForm) -> u32
    ensures { result ≡ (aes_priority aes + ghash_priority ghash) / 2 }
{
    (aes_priority(aes) + ghash_priority(ghash)) / 2
}

fn priority_of(plan: &Plan) -> u32
    ensures { result ≡ priority_of plan.now }
{
    match *plan {
        Plan::Cbc(aes) | Plan::Ctr(aes) | Plan::Rfc3686(aes) | Plan::Xts(aes) => aes_priority(aes),
        Plan::Gcm(aes, ghash) | Plan::Rfc4106(aes, ghash) => gcm_priority(aes, ghash),
        Plan::Ccm(aes) | Plan::Cmac(aes) => aes_priority(aes),
        Plan::Hmac => 100,
        Plan::AuthencCbc(aes) | Plan::AuthencCtr(aes) => aes_priority(aes) * 10 + 100,
        Plan::AuthencRfc3686(aes) | Plan::AuthencXts(aes) => aes_priority(aes) * 10 + 100,
    }
}

fn kind_of(plan: &Plan) -> u32
    ensures { result ≡ kind_number (kind_of plan.now) }
{
    match *plan {
        Plan::Cbc(_) | Plan::Ctr(_) | Plan::Rfc3686(_) | Plan::Xts(_) => 1,
        Plan::Gcm(..) | Plan::Rfc4106(..) | Plan::Ccm(_) => 2,
        Plan::AuthencCbc(_) | Plan::AuthencCtr(_) => 2,
        Plan::AuthencRfc3686(_) | Plan::AuthencXts(_) => 2,
        Plan::Hmac | Plan::Cmac(_) => 3,
    }
}

fn block_size_of(plan: &Plan) -> u32
    ensures { result ≡ block_size_of plan.now }
{
    match *plan {
        Plan::Cbc(_) | Plan::Xts(_) | Plan::Cmac(_) => 16,
        Plan::AuthencCbc(_) | Plan::AuthencXts(_) => 16,
        Plan::Hmac => 64,
        Plan::Ctr(_) | Plan::Rfc3686(_) | Plan::AuthencCtr(_) | Plan::AuthencRfc3686(_) => 1,
        Plan::Gcm(..) | Plan::Rfc4106(..) | Plan::Ccm(_) => 1,
    }
}

fn iv_size_of(plan: &Plan) -> u32
    ensures { result ≡ iv_size plan.now }
{
    match *plan {
        Plan::Cbc(_) | Plan::Ctr(_) | Plan::Xts(_) | Plan::Ccm(_) => 16,
        Plan::AuthencCbc(_) | Plan::AuthencCtr(_) | Plan::AuthencXts(_) => 16,
        Plan::Rfc3686(_) | Plan::Rfc4106(..) | Plan::AuthencRfc3686(_) => 8,
        Plan::Gcm(..) => 12,
        Plan::Hmac | Plan::Cmac(_) => 0,
    }
}

/// The bytes of the greatest tag, or of the MAC.
fn tag_size_of(plan: &Plan) -> u32
    ensures { result ≡ tag_size_of plan.now + mac_size plan.now }
{
    match *plan {
        Plan::Hmac => 32,
        Plan::Cmac(_) => 16,
        _ => largest_tag_size(plan),
    }
}

fn least_key(plan: &Plan) -> u32
    ensures { result ≡ least_key plan.now }
{
    match *plan {
        Plan::Hmac => 0,
        Plan::Cbc(_) | Plan::Ctr(_) | Plan::Gcm(..) | Plan::Ccm(_) | Plan::Cmac(_) => 16,
        Plan::Rfc3686(_) | Plan::Rfc4106(..) => 20,
        Plan::Xts(_) => 32,
        Plan::AuthencCbc(_) | Plan::AuthencCtr(_) => 24,
        Plan::AuthencRfc3686(_) => 28,
        Plan::AuthencXts(_) => 40,
    }
}

fn greatest_key(plan: &Plan) -> u32
    ensures { result ≡ greatest_key plan.now }
{
    match *plan {
        Plan::Cbc(_) | Plan::Ctr(_) | Plan::Gcm(..) | Plan::Ccm(_) | Plan::Cmac(_) => 32,
        Plan::Rfc3686(_) | Plan::Rfc4106(..) => 36,
        Plan::Xts(_) => 64,
        Plan::Hmac | Plan::AuthencCbc(_) | Plan::AuthencCtr(_) => u32::MAX,
        Plan::AuthencRfc3686(_) | Plan::AuthencXts(_) => u32::MAX,
    }
}

/// Writes a name, with zeros behind it.
fn put_name(place: &mut [u8; 128], name: &[u8])
    requires { length name.now ≤ 127 }
    ensures { place.new ≡ padded name.now }
{
    *place = [0; 128];
    copy_front(name, place);
}

/// The bytes of the tag that is set, or of the MAC.
fn told_tag(plan: &Plan, authsize: u32) -> u32
    ensures { result ≡ told_tag plan.now authsize }
{
    match *plan {
        Plan::Hmac => 32,
        Plan::Cmac(_) => 16,
        Plan::Cbc(_) | Plan::Ctr(_) | Plan::Rfc3686(_) | Plan::Xts(_) => authsize,
        Plan::Gcm(..) | Plan::Rfc4106(..) | Plan::Ccm(_) => authsize,
        Plan::AuthencCbc(_) | Plan::AuthencCtr(_) => authsize,
        Plan::AuthencRfc3686(_) | Plan::AuthencXts(_) => authsize,
    }
}

/// What is told of a plan, and of the size of its tag.
fn tell_plan(plan: &Plan, authsize: u32, info: &mut Info)
    ensures { IsInfo info.new plan.now authsize }
{
    put_name(&mut info.name, algorithm_of(plan));
    put_name(&mut info.driver, driver_of(plan));
    info.priority = priority_of(plan);
    info.kind = kind_of(plan);
    info.block_size = block_size_of(plan);
    info.iv_size = iv_size_of(plan);
    info.max_tag_size = tag_size_of(plan);
    info.min_key_size = least_key(plan);
    info.max_key_size = greatest_key(plan);
    info.tag_size = told_tag(plan, authsize);
}

/// How many drivers there are.
const DRIVERS: usize = 43;

/// The driver at a place of the list of all drivers.
fn driver_at(index: usize) -> Plan
    requires { index < 43 }
    ensures { slice_get listed index ≡ Some result }
{
    match index {
        0 => Plan::Cbc(AesForm::AesLanes),
        1 => Plan::Cbc(AesForm::AesTable),
        2 => Plan::Cbc(AesForm::AesGeneric),
        3 => Plan::Ctr(AesForm::AesLanes),
        4 => Plan::Ctr(AesForm::AesTable),
        5 => Plan::Ctr(AesForm::AesGeneric),
        6 => Plan::Rfc3686(AesForm::AesLanes),
        7 => Plan::Rfc3686(AesForm::AesTable),
        8 => Plan::Rfc3686(AesForm::AesGeneric),
        9 => Plan::Xts(AesForm::AesLanes),
        10 => Plan::Xts(AesForm::AesTable),
        11 => Plan::Xts(AesForm::AesGeneric),
        12 => Plan::Gcm(AesForm::AesLanes, GhashForm::GhashTable),
        13 => Plan::Gcm(AesForm::AesLanes, GhashForm::GhashGeneric),
        14 => Plan::Gcm(AesForm::AesTable, GhashForm::GhashTable),
        15 => Plan::Gcm(AesForm::AesTable, GhashForm::GhashGeneric),
        16 => Plan::Gcm(AesForm::AesGeneric, GhashForm::GhashTable),
        17 => Plan::Gcm(AesForm::AesGeneric, GhashForm::GhashGeneric),
        18 => Plan::Rfc4106(AesForm::AesLanes, GhashForm::GhashTable),
        19 => Plan::Rfc4106(AesForm::AesLanes, GhashForm::GhashGeneric),
        20 => Plan::Rfc4106(AesForm::AesTable, GhashForm::GhashTable),
        21 => Plan::Rfc4106(AesForm::AesTable, GhashForm::GhashGeneric),
        22 => Plan::Rfc4106(AesForm::AesGeneric, GhashForm::GhashTable),
        23 => Plan::Rfc4106(AesForm::AesGeneric, GhashForm::GhashGeneric),
        24 => Plan::Ccm(AesForm::AesLanes),
        25 => Plan::Ccm(AesForm::AesTable),
        26 => Plan::Ccm(AesForm::AesGeneric),
        27 => Plan::Hmac,
        28 => Plan::Cmac(AesForm::AesLanes),
        29 => Plan::Cmac(AesForm::AesTable),
        30 => Plan::Cmac(AesForm::AesGeneric),
        31 => Plan::AuthencCbc(AesForm::AesLanes),
        32 => Plan::AuthencCbc(AesForm::AesTable),
        33 => Plan::AuthencCbc(AesForm::AesGeneric),
        34 => Plan::AuthencCtr(AesForm::AesLanes),
        35 => Plan::AuthencCtr(AesForm::AesTable),
        36 => Plan::AuthencCtr(AesForm::AesGeneric),
        37 => Plan::AuthencRfc3686(AesForm::AesLanes),
        38 => Plan::AuthencRfc3686(AesForm::AesTable),
        39 => Plan::AuthencRfc3686(AesForm::AesGeneric),
        40 => Plan::AuthencXts(AesForm::AesLanes),
        41 => Plan::AuthencXts(AesForm::AesTable),
        _ => Plan::AuthencXts(AesForm::AesGeneric),
    }
}

/// What is told of the driver at a place of the list. `NoName` behind its end.
pub fn list(index: usize, info: &mut Info) -> Status
    ensures { Lists index result info.old info.new }
{
    if index >= DRIVERS {
        return Status::NoName;
    }
    let plan = driver_at(index);
    tell_plan(&plan, largest_tag_size(&plan), info);
    Status::Done
}

/// What is told of the transform in the place.
pub fn tell(slot: &mut Slot, alloc: Global, info: &mut Info) -> Status
    ensures kept { slot.new.handle.value ≡ slot.old.handle.value }
    ensures told { Tells slot.old.handle.value result info.old info.new }
{
    let Some(held) = slot.take(alloc) else {
        return Status::Invalid;
    };
    tell_plan(&held.plan, held.authsize, info);
    slot.fill(held);
    Status::Done
}
