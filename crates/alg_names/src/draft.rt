//! A name that is not whole yet, and how one more byte changes it.
ghost use Rattle.std.specs.Prelude.{◌≡◌, ◌<◌, ◌≤◌, ◌⊎◌, IfOk, IfErr};
ghost use Rattle.alg_names.specs.Name.{arg, end, count, width};
ghost use Rattle.alg_names.specs.Reader.{joined, behind_name, wide_open, step, reading, in_word, IsFine, IsNarrow};
ghost use Rattle.alg_names.specs.Drafts.{frame_of, frames, reading_of, StopsAt};
ghost use Rattle.alg_names.specs.declared.name_errors.NameErr.TheVariants.{TooMany, Memory};

use crate::grammar::is_in_word;
use crate::limits::MAX_ARGUMENTS;
use crate::{Name, NameErr};
use kc_base::Bytes;
use std::alloc::Global;

/// An open template: its word, and its arguments so far.
#[derive(Drop)]
pub(crate) struct Template {
    word: Bytes,
    arguments: Vec<Name>,
}

/// What stands behind the last `(` or `,`.
#[derive(Drop)]
pub(crate) enum Part {
    Nothing,
    Word(Bytes),
    Whole(Name),
}

/// A name that is not whole yet: the open templates, the outermost first, and what stands behind the last `(` or `,`.
#[derive(Drop)]
pub(crate) struct Draft {
    pub(crate) templates: Vec<Template>,
    pub(crate) part: Part,
}

/// The template with one argument more, if it may have one.
fn with_argument(template: Template, name: Name) -> Result<Template, NameErr>
    ensures ok { IfOk result (λ t. (frame_of t).0 ≡ (frame_of template).0 × ((frame_of t).1 ≡ joined (frame_of template).1 (arg name end))
        × (count (frame_of template).1 < 4)) }
    ensures err { IfErr result (λ e. (e ≡ Memory) ⊎ ((e ≡ TooMany) × (4 ≤ count (frame_of template).1))) }
{
    let Template {
        word,
        mut arguments,
    } = template;
    if arguments.len() >= MAX_ARGUMENTS {
        return Err(NameErr::TooMany);
    }
    arguments.push(name)?;
    Ok(Template { word, arguments })
}

/// The draft behind a whole name and the byte after it, a `,` or a `)`.
fn behind(mut templates: Vec<Template>, name: Name, byte: u8) -> Result<Draft, NameErr>
    requires fine { IsFine (behind_name (frames templates.items) name byte) }
    requires narrow { (wide_open (frames templates.items) ≤ 4) × (width name ≤ 4) }
    ensures ok { IfOk result (λ d. (reading_of d ≡ behind_name (frames templates.items) name byte) × IsNarrow (reading_of d)) }
    ensures err { IfErr result (λ e. StopsAt e (behind_name (frames templates.items) name byte)) }
{
    match templates.pop() {
        Some(template) => {
            let template = with_argument(template, name)?;
            if byte == b',' {
                templates.push(template)?;
                Ok(Draft {
                    templates,
                    part: Part::Nothing,
                })
            } else {
                let Template { word, arguments } = template;
                let name = Name::from_parts(word, arguments);
                Ok(Draft {
                    templates,
                    part: Part::Whole(name),
                })
            }
        }
        None => unreachable!(),
    }
}

/// The draft behind a word and the byte after it.
fn behind_word(
    alloc: Global,
    mut templates: Vec<Template>,
    mut word: Bytes,
    byte: u8,
) -> Result<Draft, NameErr>
    requires fine { IsFine (reading (frames templates.items) (in_word word)) }
    requires narrow { IsNarrow (reading (frames templates.items) (in_word word)) }
    requires next { IsFine (step (reading (frames templates.items) (in_word word)) byte) }
    ensures ok { IfOk result (λ d. (reading_of d ≡ step (reading (frames templates.items) (in_word word)) byte) × IsNarrow (reading_of d)) }
    ensures err { IfErr result (λ e. StopsAt e (step (reading (frames templates.items) (in_word word)) byte)) }
{
    let part = if is_in_word(byte) {
        word.push(byte)?;
        Part::Word(word)
    } else if byte == b'(' {
        templates.push(Template {
            word,
            arguments: Vec::new(alloc),
        })?;
        Part::Nothing
    } else {
        let name = Name::from_parts(word, Vec::new(alloc));
        return behind(templates, name, byte);
    };
    Ok(Draft { templates, part })
}

/// The draft behind one more byte.
pub(crate) fn advance(alloc: Global, draft: Draft, byte: u8) -> Result<Draft, NameErr>
    requires fine { IsFine (reading_of draft) }
    requires narrow { IsNarrow (reading_of draft) }
    requires next { IsFine (step (reading_of draft) byte) }
    ensures ok { IfOk result (λ d. (reading_of d ≡ step (reading_of draft) byte) × IsNarrow (reading_of d)) }
    ensures err { IfErr result (λ e. StopsAt e (step (reading_of draft) byte)) }
{
    let Draft { templates, part } = draft;
    match part {
        Part::Nothing => {
            let mut word = Bytes::new(alloc);
            word.push(byte)?;
            Ok(Draft {
                templates,
                part: Part::Word(word),
            })
        }
        Part::Word(word) => behind_word(alloc, templates, word, byte),
        Part::Whole(name) => behind(templates, name, byte),
    }
}
