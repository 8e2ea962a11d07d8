//! What a line says.

ghost use Rattle.std.specs.Prelude.{◌≡◌, map, IfOk};
ghost use Rattle.script_text.specs.Lines.{without_return};
ghost use Rattle.script_text.specs.Commands.{command_of};
ghost use Rattle.script_text.specs.Script.{command_line, line_of, line_of_tokens, line_of_text};
ghost use Rattle.script_text.specs.Sizes.{IsShortLine};

use crate::arguments::ReadError;
use crate::commands::Line;
use crate::rows::read_command;
use crate::tokens::{are_visible, begins_comment, split_tokens};
use std::alloc::{AllocError, Global};

/// The most bytes that a line may have before its line feed.
pub const MAX_LINE: usize = 65_536;

// What a line says that begins with this token and is no comment.
fn read_tokens(alloc: Global, name: &[u8], args: &[&[u8]]) -> Result<Line, AllocError>
    ensures { IfOk result (λ line. line ≡ command_line (command_of name.now (map (λ token. token.now) args.now))) }
{
    match read_command(alloc, name, args) {
        Ok(command) => Ok(Line::Cmd(command)),
        Err(ReadError::Malformed) => Ok(Line::Malformed),
        Err(ReadError::NoMemory) => Err(AllocError),
    }
}

fn read_parts(alloc: Global, tokens: &[&[u8]]) -> Result<Line, AllocError>
    ensures { IfOk result (λ line. line ≡ line_of_tokens (map (λ token. token.now) tokens.now)) }
{
    let visible = are_visible(tokens);
    let Some((name, args)) = tokens.split_first() else {
        return Ok(Line::Nothing);
    };
    if begins_comment(name) {
        return Ok(Line::Nothing);
    }
    if !visible {
        return Ok(Line::Malformed);
    }
    read_tokens(alloc, name, args)
}

// What stands before the line feed, and before a carriage return there.
pub(crate) fn text_before_feed(line: &[u8]) -> &[u8]
    ensures { result.now ≡ without_return line.now }
{
    match line {
        [text @ .., b'\r'] => text,
        _ => line,
    }
}

// What the text of a line says, where the line has so many bytes before its line feed.
fn read_text(alloc: Global, length: usize, text: &[u8]) -> Result<Line, AllocError>
    ensures { IfOk result (λ said. said ≡ line_of_text length text.now) }
{
    if length > MAX_LINE {
        return Ok(Line::Malformed);
    }
    let tokens = split_tokens(alloc, text)?;
    read_parts(alloc, &tokens)
}

/// What a line says. The line is given with the line feed that ends it, where one does; a carriage return before that
/// line feed isn't part of the text. A line with more than 65,536 bytes before its line feed is `Malformed`. Want of
/// memory is the only error.
pub fn read_line(alloc: Global, line: &[u8]) -> Result<Line, AllocError>
    ensures line { IfOk result (λ said. said ≡ line_of line.now) }
    ensures short { IfOk result IsShortLine }
{
    match line {
        [before @ .., b'\n'] => read_text(alloc, before.len(), text_before_feed(before)),
        _ => read_text(alloc, line.len(), line),
    }
}
