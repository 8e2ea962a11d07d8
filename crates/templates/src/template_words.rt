//! The words that name templates.
ghost use Rattle.std.specs.Prelude.{◌≡◌};
ghost use Rattle.templates.specs.Table.{template_at};
ghost use Rattle.templates.specs.Words.{template_word, template_named};

use alg_names::Name;

/// A template by its word; `CryptdPcrypt` is that of `cryptd` over `pcrypt` alone.
#[derive(Clone, Copy, Debug, PartialEq, Eq)]
pub enum Template {
    Cbc,
    Ctr,
    Rfc3686,
    Xts,
    Gcm,
    GcmBase,
    Rfc4106,
    Ccm,
    Hmac,
    Cmac,
    Authenc,
    Pcrypt,
    Cryptd,
    CryptdPcrypt,
}

/// The templates that a word names.
const NAMED: [Template; 13] = [
    Template::Cbc,
    Template::Ctr,
    Template::Rfc3686,
    Template::Xts,
    Template::Gcm,
    Template::GcmBase,
    Template::Rfc4106,
    Template::Ccm,
    Template::Hmac,
    Template::Cmac,
    Template::Authenc,
    Template::Pcrypt,
    Template::Cryptd,
];

impl Template {
    /// Its word; that of `CryptdPcrypt` is the first of its two.
    fn word(self) -> &'static [u8]
        ensures { result.now ≡ template_word self }
    {
        match self {
            Template::Cbc => b"cbc",
            Template::Ctr => b"ctr",
            Template::Rfc3686 => b"rfc3686",
            Template::Xts => b"xts",
            Template::Gcm => b"gcm",
            Template::GcmBase => b"gcm_base",
            Template::Rfc4106 => b"rfc4106",
            Template::Ccm => b"ccm",
            Template::Hmac => b"hmac",
            Template::Cmac => b"cmac",
            Template::Authenc => b"authenc",
            Template::Pcrypt => b"pcrypt",
            Template::Cryptd | Template::CryptdPcrypt => b"cryptd",
        }
    }
}

/// The template of a word.
#[tactic(auto, unfolding(crate::specs::Words::template_named))]
pub(crate) fn template_of(word: &[u8]) -> Option<Template>
    ensures { result ≡ template_named word.now }
{
    NAMED
        .iter()
        .copied()
        .find(|template| word == template.word())
}

/// The template of a name.
pub(crate) fn template_of_name(name: &Name) -> Option<Template>
    ensures { result ≡ template_at name.now }
{
    let template = template_of(name.word())?;
    match (template, name.args()) {
        (Template::Cryptd, [only]) if only.word() == b"pcrypt".as_slice() => {
            Some(Template::CryptdPcrypt)
        }
        _ => Some(template),
    }
}
