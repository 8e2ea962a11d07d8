//! The lines of a board's events.

ghost use Rattle.std.specs.Prelude.{◌≡◌, ◌∷◌, [], ◌&&◌, codes, true, IfOk, OnOk};
ghost use Rattle.std.specs.Fmt.{decimal};
ghost use Rattle.std.specs.Arc.{arc_value};
ghost use Rattle.reply_text.specs.Origins.{origin_word};
ghost use Rattle.trace_text.specs.Sentences.{spaced, with_words};
ghost use Rattle.trace_text.specs.Text.{sentence, board_words, shape_words, started_words, entered_words, backlog_word, mask_word};
ghost use Rattle.trace_text.specs.Trace.{shape_fits, entered_fits, option_fits, origin_fits, board_fits};

use crate::sentence_builder::SentenceBuilder;
use crate::words::{backlog_word, mask_word};
use board::{BoardEntry, Entered, Shape};
use kc_base::Bytes;
use reply_text::Origin;
use std::alloc::{AllocError, Global};

/// What knows from which line of which client's script it is.
pub trait HasScriptLine {
    ghost use Rattle.reply_text.specs.declared.origin.Origin.{Origin};

    ghost origin: { Self → Origin };

    /// The line and the client.
    fn origin(&self) -> Origin
        ensures { result ≡ origin self.now };
}

// A line as one word, behind its client and a dot where that isn't the first.
fn line_word(alloc: Global, client: u32, line: u32) -> Result<Bytes, AllocError>
    ensures text { IfOk result (λ word. word ≡ origin_word (record { client = client; line = line })) }
    ensures fits { OnOk result (origin_fits (record { client = client; line = line }) ≡ true) }
{
    let mut word = Bytes::new(alloc);
    if client != 0 {
        word.append(client.to_string(alloc)?.as_bytes())?;
        word.push(b'.')?;
    }
    word.append(line.to_string(alloc)?.as_bytes())?;
    Ok(word)
}

// A call on a pipeline.
fn put_call_on(
    line: &mut SentenceBuilder,
    caller: u32,
    call: &[u8],
    pipe: u64,
) -> Result<(), AllocError>
    ensures { OnOk result (line.new ≡ with_words line.old (decimal caller ∷ call.now ∷ decimal pipe ∷ [])) }
{
    line.call(caller, call)?;
    line.number(pipe)
}

// A call on a pipeline, and a number behind it.
fn put_number_of(
    line: &mut SentenceBuilder,
    caller: u32,
    call: &[u8],
    pipe: u64,
    number: u64,
) -> Result<(), AllocError>
    ensures { OnOk result (line.new ≡ with_words line.old (decimal caller ∷ call.now ∷ decimal pipe ∷ decimal number ∷ [])) }
{
    put_call_on(line, caller, call, pipe)?;
    line.number(number)
}

fn put_origin(line: &mut SentenceBuilder, of: Origin) -> Result<(), AllocError>
    ensures text { OnOk result (line.new ≡ with_words line.old (origin_word of ∷ [])) }
    ensures fits { OnOk result (origin_fits of ≡ true) }
{
    let word = line_word(line.alloc(), of.client, of.line)?;
    line.word(word.as_slice())
}

fn put_shape(line: &mut SentenceBuilder, shape: Shape) -> Result<(), AllocError>
    ensures text { OnOk result (line.new ≡ with_words line.old (shape_words shape)) }
    ensures fits { OnOk result (shape_fits shape ≡ true) }
{
    match shape {
        Shape::Pad(lists) => line.numbered(b"pad", u64::from(lists)),
        Shape::Queue(max) => line.numbered(b"queue", u64::from(max)),
        Shape::Chain(max, lists) => {
            line.numbered(b"chain", u64::from(max))?;
            line.number(u64::from(lists))
        }
    }
}

fn put_entered(line: &mut SentenceBuilder, answer: Entered) -> Result<(), AllocError>
    ensures text { OnOk result (line.new ≡ with_words line.old (entered_words answer)) }
    ensures fits { OnOk result (entered_fits answer ≡ true) }
{
    match answer {
        Entered::InProgress(number) => line.numbered(b"EINPROGRESS", number),
        Entered::Busy(number) => line.numbered(b"EBUSY", number),
        Entered::NoSpace => line.word(b"ENOSPC"),
    }
}

fn put_started(line: &mut SentenceBuilder, started: Option<u64>) -> Result<(), AllocError>
    ensures text { OnOk result (line.new ≡ with_words line.old (started_words started)) }
    ensures fits { OnOk result (option_fits started ≡ true) }
{
    match started {
        Some(number) => line.numbered(b"started", number),
        None => line.word(b"-"),
    }
}

fn put_mask(line: &mut SentenceBuilder, mask: u16) -> Result<(), AllocError>
    ensures { OnOk result (line.new ≡ with_words line.old (mask_word mask ∷ [])) }
{
    let word = mask_word(line.alloc(), mask)?;
    line.word(word.as_slice())
}

// The words of an event behind the first, which stands already.
fn put_event<A: HasScriptLine>(
    line: &mut SentenceBuilder,
    event: &BoardEntry<A>,
) -> Result<(), AllocError>
    requires { line.old ≡ codes "b" }
    ensures text { OnOk result (line.new ≡ spaced (board_words A.origin event.now)) }
    ensures fits { OnOk result (board_fits A.origin event.now ≡ true) }
{
    match event {
        BoardEntry::Born {
            caller,
            pipe,
            shape,
        } => {
            put_call_on(line, *caller, b"born", *pipe)?;
            put_shape(line, *shape)
        }
        BoardEntry::Submit {
            caller,
            pipe,
            number,
            ask,
        } => {
            put_number_of(line, *caller, b"submit", *pipe, *number)?;
            put_origin(line, ask.origin())
        }
        BoardEntry::Take {
            caller,
            pipe,
            number,
        } => put_number_of(line, *caller, b"take", *pipe, *number),
        BoardEntry::Finish {
            caller,
            pipe,
            number,
        } => put_number_of(line, *caller, b"finish", *pipe, *number),
        BoardEntry::Enq {
            caller,
            pipe,
            ask,
            backlog,
            answer,
        } => {
            put_call_on(line, *caller, b"enq", *pipe)?;
            put_origin(line, ask.origin())?;
            line.word(backlog_word(*backlog))?;
            put_entered(line, *answer)
        }
        BoardEntry::Deq {
            caller,
            pipe,
            number,
            started,
        } => {
            put_number_of(line, *caller, b"deq", *pipe, *number)?;
            put_started(line, *started)
        }
        BoardEntry::Done {
            caller,
            pipe,
            number,
        } => put_number_of(line, *caller, b"done", *pipe, *number),
        BoardEntry::Hold { caller, pipe } => put_call_on(line, *caller, b"hold", *pipe),
        BoardEntry::Go { caller, pipe } => put_call_on(line, *caller, b"go", *pipe),
        BoardEntry::Collect { caller, pipe, to } => {
            put_number_of(line, *caller, b"collect", *pipe, *to)
        }
        BoardEntry::Close { caller, pipe } => put_call_on(line, *caller, b"close", *pipe),
        BoardEntry::Share { caller, pipe } => put_call_on(line, *caller, b"share", *pipe),
        BoardEntry::Mask { caller, pipe, mask } => {
            put_call_on(line, *caller, b"mask", *pipe)?;
            put_mask(line, *mask)
        }
        BoardEntry::Shut { caller } => line.call(*caller, b"shut"),
    }
}

/// The line of a board's event, whose numbers are within their types.
#[tactic(auto, using(crate::proofs::SentenceLemmas::ended))]
pub fn board_line<A: HasScriptLine>(
    alloc: Global,
    event: &BoardEntry<A>,
) -> Result<Bytes, AllocError>
    ensures text { IfOk result (λ text. text ≡ sentence (board_words A.origin event.now)) }
    ensures fits { OnOk result (board_fits A.origin event.now ≡ true) }
{
    let mut line = SentenceBuilder::new(alloc, b"b")?;
    put_event(&mut line, event)?;
    line.end()
}
