//! What a template asks for.
ghost use Rattle.std.specs.Prelude.{◌≡◌, Ok, Err, IfOk, IfErr, length, Some};
ghost use Rattle.alg_names.specs.Name.{args_of};
ghost use Rattle.templates.specs.Table.{template_at, children_of, asked, FaultIs};

use crate::BuildErr;
use crate::template_words::{Template, template_of_name};
use alg_names::Name;
use kc_base::{Bytes, Errno};
use std::alloc::Global;

/// A copy of the only argument.
fn only(alloc: Global, args: &[Name]) -> Result<Vec<Name>, BuildErr>
    requires { length args.now ≡ 1 }
    ensures ok { IfOk result (λ names. names.items ≡ args.now) }
    ensures err { IfErr result (λ e. e ≡ BuildErr.Memory) }
{
    let mut names = Vec::new(alloc);
    names.push(args[0].copy(alloc)?)?;
    Ok(names)
}

/// Copies of both arguments.
fn both(alloc: Global, args: &[Name]) -> Result<Vec<Name>, BuildErr>
    requires { length args.now ≡ 2 }
    ensures ok { IfOk result (λ names. names.items ≡ args.now) }
    ensures err { IfErr result (λ e. e ≡ BuildErr.Memory) }
{
    let mut names = Vec::new(alloc);
    names.push(args[0].copy(alloc)?)?;
    names.push(args[1].copy(alloc)?)?;
    Ok(names)
}

/// What `gcm(X)` asks for: `ctr(X)` and `ghash`.
fn counter_and_hash(alloc: Global, name: &Name) -> Result<Vec<Name>, BuildErr>
    requires word { template_at name.now ≡ Some Template.Gcm }
    requires one { length (args_of name.now) ≡ 1 }
    ensures ok { IfOk result (λ names. asked Template.Gcm (args_of name.now) ≡ Ok names.items) }
    ensures err { IfErr result (λ e. e ≡ BuildErr.Memory) }
{
    let mut names = Vec::new(alloc);
    let ctr = Bytes::copy_of(alloc, b"ctr")?;
    let ghash = Bytes::copy_of(alloc, b"ghash")?;
    let counter = name.copy(alloc)?.with_word(ctr);
    names.push(counter)?;
    names.push(Name::alone(alloc, ghash))?;
    Ok(names)
}

/// What `cryptd(pcrypt(X))` asks for: `X`.
fn within(alloc: Global, args: &[Name]) -> Result<Vec<Name>, BuildErr>
    ensures ok { IfOk result (λ names. asked Template.CryptdPcrypt args.now ≡ Ok names.items) }
    ensures err { IfErr result (λ e. FaultIs e (asked Template.CryptdPcrypt args.now)) }
{
    let [pcrypt] = args else {
        return Err(BuildErr::Fault(Errno::EINVAL));
    };
    let inner = pcrypt.args();
    if inner.len() != 1 {
        return Err(BuildErr::Fault(Errno::EINVAL));
    }
    only(alloc, inner)
}

/// The names that the name's template asks for, in the order in which they are looked for.
///
/// `Fault` is ENOENT where the word names no template, otherwise EINVAL where the name, or a `pcrypt` alone in a
/// `cryptd`, has a wrong number of arguments. `Memory` where memory ran out.
pub fn children(alloc: Global, name: &Name) -> Result<Vec<Name>, BuildErr>
    ensures ok { IfOk result (λ names. children_of name.now ≡ Ok names.items) }
    ensures err { IfErr result (λ e. FaultIs e (children_of name.now)) }
{
    let Some(template) = template_of_name(name) else {
        return Err(BuildErr::Fault(Errno::ENOENT));
    };
    let args = name.args();
    match template {
        Template::Gcm => {
            if args.len() == 1 {
                counter_and_hash(alloc, name)
            } else {
                Err(BuildErr::Fault(Errno::EINVAL))
            }
        }
        Template::GcmBase | Template::Authenc => {
            if args.len() == 2 {
                both(alloc, args)
            } else {
                Err(BuildErr::Fault(Errno::EINVAL))
            }
        }
        Template::CryptdPcrypt => within(alloc, args),
        _ => {
            if args.len() == 1 {
                only(alloc, args)
            } else {
                Err(BuildErr::Fault(Errno::EINVAL))
            }
        }
    }
}
