//! What a template makes of what it asked for.
ghost use Rattle.std.specs.Prelude.{◌≡◌, Ok, Err, IfOk, IfErr, List, [], ◌∷◌};
ghost use Rattle.templates.specs.Table.{derived_of, derived_over, FaultIs, enclosed, enclosed_two, limited, inside_ctr, admits, admits_two, begins_with, name_over, driver_over, name_over_two, driver_over_two, priority_over_two, raised, kind_over, wrap_of, limited_priority};

use crate::BuildErr;
use crate::template_words::{Template, template_of_name};
use alg_names::Name;
use alg_names::limits::MAX_BYTES;
use alg_registry::{Ids, Kind, Spec, Wrap};
use kc_base::{Bytes, Errno};
use std::alloc::Global;

/// `word(inner)`.
fn enclose(alloc: Global, word: &[u8], inner: &[u8]) -> Result<Bytes, BuildErr>
    ensures ok { IfOk result (λ text. text ≡ enclosed word.now inner.now) }
    ensures err { IfErr result (λ e. e ≡ BuildErr.Memory) }
{
    let mut text = Bytes::copy_of(alloc, word)?;
    text.append(b"(")?;
    text.append(inner)?;
    text.append(b")")?;
    Ok(text)
}

/// `word(first,second)`.
fn enclose_two(alloc: Global, word: &[u8], first: &[u8], second: &[u8]) -> Result<Bytes, BuildErr>
    ensures ok { IfOk result (λ text. text ≡ enclosed_two word.now first.now second.now) }
    ensures err { IfErr result (λ e. e ≡ BuildErr.Memory) }
{
    let mut text = Bytes::copy_of(alloc, word)?;
    text.append(b"(")?;
    text.append(first)?;
    text.append(b",")?;
    text.append(second)?;
    text.append(b")")?;
    Ok(text)
}

/// Refuses a name or a driver of more than 127 bytes.
fn limit(spec: Spec) -> Result<Spec, BuildErr>
    ensures ok { IfOk result (λ s. limited spec ≡ Ok s) }
    ensures err { IfErr result (λ e. FaultIs e (limited spec)) }
{
    if spec.name.len() > MAX_BYTES || spec.driver.len() > MAX_BYTES {
        Err(BuildErr::Fault(Errno::ENAMETOOLONG))
    } else {
        Ok(spec)
    }
}

fn starts_with(text: &[u8], front: &[u8]) -> bool
    ensures { result ≡ begins_with text.now front.now }
{
    text.starts_with(front)
}

fn is_admitted(template: Template, child: &Spec) -> bool
    ensures { result ≡ admits template child.now }
{
    match template {
        Template::Cbc | Template::Ctr | Template::Xts | Template::Ccm | Template::Cmac => {
            matches!(child.kind, Kind::Cipher)
        }
        Template::Rfc3686 => starts_with(child.name.as_slice(), b"ctr("),
        Template::Rfc4106 => {
            starts_with(child.name.as_slice(), b"gcm(") && matches!(child.wrap, Wrap::Plain)
        }
        Template::Hmac => matches!(child.kind, Kind::Hash),
        Template::Pcrypt | Template::CryptdPcrypt => matches!(child.kind, Kind::Aead),
        Template::Cryptd => matches!(child.kind, Kind::Skcipher | Kind::Aead | Kind::Mac),
        Template::Gcm | Template::GcmBase | Template::Authenc => false,
    }
}

fn are_admitted(template: Template, first: &Spec, second: &Spec) -> bool
    ensures { result ≡ admits_two template first.now second.now }
{
    match template {
        Template::Gcm | Template::GcmBase => {
            starts_with(first.name.as_slice(), b"ctr(") && matches!(second.kind, Kind::Ghash)
        }
        Template::Authenc => {
            matches!(first.kind, Kind::Mac)
                && starts_with(first.name.as_slice(), b"hmac(")
                && matches!(second.kind, Kind::Skcipher)
        }
        _ => false,
    }
}

fn name_over_child(
    alloc: Global,
    template: Template,
    word: &[u8],
    name: &[u8],
) -> Result<Bytes, BuildErr>
    ensures ok { IfOk result (λ text. text ≡ name_over template word.now name.now) }
    ensures err { IfErr result (λ e. e ≡ BuildErr.Memory) }
{
    match template {
        Template::Pcrypt | Template::Cryptd | Template::CryptdPcrypt => {
            Ok(Bytes::copy_of(alloc, name)?)
        }
        _ => enclose(alloc, word, name),
    }
}

fn driver_over_child(
    alloc: Global,
    template: Template,
    word: &[u8],
    driver: &[u8],
) -> Result<Bytes, BuildErr>
    ensures ok { IfOk result (λ text. text ≡ driver_over template word.now driver.now) }
    ensures err { IfErr result (λ e. e ≡ BuildErr.Memory) }
{
    match template {
        Template::CryptdPcrypt => {
            let inner = enclose(alloc, b"pcrypt", driver)?;
            enclose(alloc, word, inner.as_slice())
        }
        _ => enclose(alloc, word, driver),
    }
}

fn kind_over_child(template: Template, kind: Kind) -> Kind
    ensures { result ≡ kind_over template kind }
{
    match template {
        Template::Rfc4106 | Template::Ccm | Template::Pcrypt | Template::CryptdPcrypt => Kind::Aead,
        Template::Hmac | Template::Cmac => Kind::Mac,
        Template::Cryptd => kind,
        _ => Kind::Skcipher,
    }
}

fn wrap_by(template: Template) -> Wrap
    ensures { result ≡ wrap_of template }
{
    match template {
        Template::Pcrypt => Wrap::Pcrypt,
        Template::Cryptd | Template::CryptdPcrypt => Wrap::Cryptd,
        _ => Wrap::Plain,
    }
}

fn cap(priority: u64) -> u32
    ensures { result ≡ limited_priority priority }
{
    if priority < 4_294_967_295 {
        priority as u32
    } else {
        4_294_967_295
    }
}

fn raise(template: Template, priority: u32) -> u32
    ensures { result ≡ raised template priority }
{
    match template {
        Template::Pcrypt => cap(priority as u64 + 100),
        Template::Cryptd => cap(priority as u64 + 50),
        Template::CryptdPcrypt => cap(priority as u64 + 150),
        _ => priority,
    }
}

fn derive_over_one(
    alloc: Global,
    template: Template,
    word: &[u8],
    id: u64,
    child: &Spec,
) -> Result<Spec, BuildErr>
    ensures ok { IfOk result (λ s. derived_over template word.now ((id, child.now) ∷ []) ≡ Ok s) }
    ensures err { IfErr result (λ e. FaultIs e (derived_over template word.now ((id, child.now) ∷ []))) }
{
    if !is_admitted(template, child) {
        return Err(BuildErr::Fault(Errno::EINVAL));
    }
    let name = name_over_child(alloc, template, word, child.name.as_slice())?;
    let driver = driver_over_child(alloc, template, word, child.driver.as_slice())?;
    let mut below = Ids::new(alloc);
    below.push(id)?;
    limit(Spec {
        name,
        driver,
        kind: kind_over_child(template, child.kind),
        wrap: wrap_by(template),
        priority: raise(template, child.priority),
        below,
    })
}

/// What stands in the parentheses of `ctr(..)`.
fn inside(name: &[u8]) -> &[u8]
    ensures { result.now ≡ inside_ctr name.now }
{
    if name.len() < 5 {
        &name[..0]
    } else {
        &name[4..name.len() - 1]
    }
}

fn name_over_both(
    alloc: Global,
    template: Template,
    word: &[u8],
    first: &Spec,
    second: &Spec,
) -> Result<Bytes, BuildErr>
    ensures ok { IfOk result (λ text. text ≡ name_over_two template word.now first.now second.now) }
    ensures err { IfErr result (λ e. e ≡ BuildErr.Memory) }
{
    match template {
        Template::Authenc => {
            enclose_two(alloc, word, first.name.as_slice(), second.name.as_slice())
        }
        _ => enclose(alloc, b"gcm", inside(first.name.as_slice())),
    }
}

fn driver_over_both(
    alloc: Global,
    template: Template,
    word: &[u8],
    first: &Spec,
    second: &Spec,
) -> Result<Bytes, BuildErr>
    ensures ok { IfOk result (λ text. text ≡ driver_over_two template word.now first.now second.now) }
    ensures err { IfErr result (λ e. e ≡ BuildErr.Memory) }
{
    match template {
        Template::Authenc => enclose_two(
            alloc,
            word,
            first.driver.as_slice(),
            second.driver.as_slice(),
        ),
        _ => enclose_two(
            alloc,
            b"gcm_base",
            first.driver.as_slice(),
            second.driver.as_slice(),
        ),
    }
}

fn priority_over_both(template: Template, first: &Spec, second: &Spec) -> u32
    ensures { result ≡ priority_over_two template first.now second.now }
{
    let low = first.priority as u64;
    let high = second.priority as u64;
    match template {
        Template::Authenc => cap(high * 10 + low),
        _ => ((low + high) / 2) as u32,
    }
}

fn derive_over_two(
    alloc: Global,
    template: Template,
    word: &[u8],
    first: &(u64, Spec),
    second: &(u64, Spec),
) -> Result<Spec, BuildErr>
    ensures ok { IfOk result (λ s. derived_over template word.now (first.now ∷ second.now ∷ []) ≡ Ok s) }
    ensures err { IfErr result (λ e. FaultIs e (derived_over template word.now (first.now ∷ second.now ∷ []))) }
{
    if !are_admitted(template, &first.1, &second.1) {
        return Err(BuildErr::Fault(Errno::EINVAL));
    }
    let name = name_over_both(alloc, template, word, &first.1, &second.1)?;
    let driver = driver_over_both(alloc, template, word, &first.1, &second.1)?;
    let mut below = Ids::new(alloc);
    below.push(first.0)?;
    below.push(second.0)?;
    limit(Spec {
        name,
        driver,
        kind: Kind::Aead,
        wrap: Wrap::Plain,
        priority: priority_over_both(template, &first.1, &second.1),
        below,
    })
}

/// The instance of the name over the entries that its children came to, each with its id, in the order in which
/// `children` names them.
///
/// `Fault` is ENOENT where the word names no template, otherwise EINVAL where the entries are not as many as the
/// template takes or it doesn't take one by its kind, its name or its wrap, otherwise ENAMETOOLONG where the name or
/// the driver of the instance has more than 127 bytes. `Memory` where memory ran out.
pub fn derive(alloc: Global, name: &Name, below: &[(u64, Spec)]) -> Result<Spec, BuildErr>
    ensures ok { IfOk result (λ s. derived_of name.now below.now ≡ Ok s) }
    ensures err { IfErr result (λ e. FaultIs e (derived_of name.now below.now)) }
{
    let word = name.word();
    let Some(template) = template_of_name(name) else {
        return Err(BuildErr::Fault(Errno::ENOENT));
    };
    match below {
        [only] => derive_over_one(alloc, template, word, only.0, &only.1),
        [first, second] => derive_over_two(alloc, template, word, first, second),
        _ => Err(BuildErr::Fault(Errno::EINVAL)),
    }
}
