//! The name that a text spells.
ghost use Rattle.std.specs.Prelude.{◌≤◌, length, IfOk, IfErr};
ghost use Rattle.alg_names.specs.Name.{Tree, IsName, IsAllowed, depth, width};
ghost use Rattle.alg_names.specs.Refusal.{IsRefusedFor, IsReadAs, IsNotDeep};

use crate::draft::{Draft, Part, advance};
use crate::grammar::levels_of;
use crate::limits::{MAX_BYTES, MAX_LEVELS};
use crate::printer::print_name;
use crate::{Name, NameErr};
use std::alloc::Global;

/// The name that the text is, unless a template has too many arguments.
fn build(alloc: Global, text: &[u8]) -> Result<Name, NameErr>
    requires { IsNotDeep text.now }
    ensures name { IfOk result (λ n. IsName text.now n × IsAllowed n) }
    ensures refused { IfErr result (λ e. IsRefusedFor e text.now) }
{
    let mut draft = Draft {
        templates: Vec::new(alloc),
        part: Part::Nothing,
    };
    for byte in text {
        draft = advance(alloc, draft, *byte)?;
    }
    let Draft { templates: _, part } = draft;
    match part {
        Part::Nothing => unreachable!(),
        Part::Word(word) => Ok(Name::from_parts(word, Vec::new(alloc))),
        Part::Whole(name) => Ok(name),
    }
}

/// The name that a text spells.
///
/// `TooLong` above 127 bytes; then `Bad(p)` where the text is no name, `p` being the length of its longest front that
/// begins one; then `TooDeep` above 8 levels; then `TooMany` above 4 arguments at a template. `Memory` may
/// come in place of any.
pub fn parse_name(alloc: Global, text: &[u8]) -> Result<Name, NameErr>
    ensures name { IfOk result (λ n. IsName text.now n × IsAllowed n) }
    ensures refused { IfErr result (λ e. IsRefusedFor e text.now) }
    ensures all { (t : Tree) → IsName text.now t → length text.now ≤ 127 → depth t ≤ 8 → width t ≤ 4 → IsReadAs t result }
{
    if text.len() > MAX_BYTES {
        return Err(NameErr::TooLong);
    }
    match levels_of(text) {
        Err(place) => Err(NameErr::Bad(place)),
        Ok(levels) => {
            if levels > MAX_LEVELS {
                Err(NameErr::TooDeep)
            } else {
                build(alloc, text)
            }
        }
    }
}

/// Prints the name and parses what was printed: the same name, or `Memory`.
pub fn reread(alloc: Global, name: &Name) -> Result<Name, NameErr>
    ensures { IsReadAs name.now result }
{
    let _word = name.word();
    let text = print_name(alloc, name)?;
    parse_name(alloc, text.as_slice())
}
