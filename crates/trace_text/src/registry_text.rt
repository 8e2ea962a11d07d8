//! The lines of a registry's events.

ghost use Rattle.std.specs.Prelude.{◌≡◌, ◌∷◌, ◌&&◌, [], codes, true, IfOk, OnOk};
ghost use Rattle.std.specs.List.{list_all};
ghost use Rattle.std.specs.Fmt.{decimal};
ghost use Rattle.alg_registry.specs.declared.entry.EndAnswer.TheVariants as EndAnswer;
ghost use Rattle.trace_text.specs.Sentences.{spaced, with_words};
ghost use Rattle.trace_text.specs.Text.{sentence, enlisted_words, looked_words, end_words, unlisted_words, reg_words, kind_word, wrap_word, ids_word};
ghost use Rattle.trace_text.specs.Trace.{is_u32, is_u64, spec_fits, enlisted_fits, looked_fits, end_fits, option_fits, fits};

use crate::sentence_builder::SentenceBuilder;
use crate::words::{get_word, ids_word, kind_word, plain_word, wrap_word};
use alg_registry::{EndAnswer, Enlisted, Looked, RegEntry, Spec};
use kc_base::Bytes;
use std::alloc::{AllocError, Global};

// A call that names an entry or a larval by its number.
fn put_call_on(
    line: &mut SentenceBuilder,
    caller: u32,
    call: &[u8],
    number: u64,
) -> Result<(), AllocError>
    ensures { OnOk result (line.new ≡ with_words line.old (decimal caller ∷ call.now ∷ decimal number ∷ [])) }
{
    line.call(caller, call)?;
    line.number(number)
}

fn put_enlisted(line: &mut SentenceBuilder, answer: Enlisted) -> Result<(), AllocError>
    ensures text { OnOk result (line.new ≡ with_words line.old (enlisted_words answer)) }
    ensures fits { OnOk result (enlisted_fits answer ≡ true) }
{
    match answer {
        Enlisted::Made(id) => line.numbered(b"made", id),
        Enlisted::Exist => line.word(b"EEXIST"),
        Enlisted::NFile => line.word(b"ENFILE"),
    }
}

// What is enlisted, and the answer.
fn put_enlisting(
    line: &mut SentenceBuilder,
    spec: &Spec,
    answer: Enlisted,
) -> Result<(), AllocError>
    ensures text { OnOk result (line.new ≡ with_words line.old
        (spec.now.name ∷ spec.now.driver ∷ kind_word spec.now.kind ∷ decimal spec.now.priority ∷ enlisted_words answer)) }
    ensures fits { OnOk result ((is_u32 spec.now.priority && enlisted_fits answer) ≡ true) }
{
    line.word(spec.name.as_slice())?;
    line.word(spec.driver.as_slice())?;
    line.word(kind_word(spec.kind))?;
    line.number(u64::from(spec.priority))?;
    put_enlisted(line, answer)
}

fn put_looked(line: &mut SentenceBuilder, answer: Looked) -> Result<(), AllocError>
    ensures text { OnOk result (line.new ≡ with_words line.old (looked_words answer)) }
    ensures fits { OnOk result (looked_fits answer ≡ true) }
{
    match answer {
        Looked::Found(id) => line.numbered(b"found", id),
        Looked::Pending(larval) => line.numbered(b"pending", larval),
        Looked::Began(larval) => line.numbered(b"began", larval),
        Looked::Absent => line.word(b"absent"),
    }
}

fn put_ids(line: &mut SentenceBuilder, ids: &[u64]) -> Result<(), AllocError>
    ensures text { OnOk result (line.new ≡ with_words line.old (ids_word ids.now ∷ [])) }
    ensures fits { OnOk result (list_all is_u64 ids.now ≡ true) }
{
    let word = ids_word(line.alloc(), ids)?;
    line.word(word.as_slice())
}

fn put_built(line: &mut SentenceBuilder, id: u64, spec: &Spec) -> Result<(), AllocError>
    ensures text { OnOk result (line.new ≡ with_words line.old (end_words (EndAnswer.Built id spec.now))) }
    ensures fits { OnOk result ((is_u64 id && spec_fits spec.now) ≡ true) }
{
    line.numbered(b"built", id)?;
    line.word(spec.name.as_slice())?;
    line.word(spec.driver.as_slice())?;
    line.word(kind_word(spec.kind))?;
    line.word(wrap_word(spec.wrap))?;
    line.number(u64::from(spec.priority))?;
    put_ids(line, spec.below.as_slice())
}

fn put_end(line: &mut SentenceBuilder, answer: &EndAnswer) -> Result<(), AllocError>
    ensures text { OnOk result (line.new ≡ with_words line.old (end_words answer.now)) }
    ensures fits { OnOk result (end_fits answer.now ≡ true) }
{
    match answer {
        EndAnswer::Built(id, spec) => put_built(line, *id, spec),
        EndAnswer::Joined(id, below) => {
            line.numbered(b"joined", *id)?;
            put_ids(line, below.as_slice())
        }
        EndAnswer::Failed(errno) => {
            line.word(b"failed")?;
            line.word(errno.name().as_bytes())
        }
        EndAnswer::NoMemory => line.word(b"nomemory"),
    }
}

fn put_unlisted(line: &mut SentenceBuilder, answer: Option<u64>) -> Result<(), AllocError>
    ensures text { OnOk result (line.new ≡ with_words line.old (unlisted_words answer)) }
    ensures fits { OnOk result (option_fits answer ≡ true) }
{
    match answer {
        Some(id) => line.numbered(b"ok", id),
        None => line.word(b"ENOENT"),
    }
}

// The words of an event behind the first, which stands already.
fn put_event(line: &mut SentenceBuilder, event: &RegEntry) -> Result<(), AllocError>
    requires { line.old ≡ codes "r" }
    ensures text { OnOk result (line.new ≡ spaced (reg_words event.now)) }
    ensures fits { OnOk result (fits event.now ≡ true) }
{
    match event {
        RegEntry::Enlist {
            caller,
            spec,
            answer,
        } => {
            line.call(*caller, b"enlist")?;
            put_enlisting(line, spec, *answer)
        }
        RegEntry::Look {
            caller,
            text,
            plain,
            answer,
        } => {
            line.call(*caller, b"look")?;
            line.word(text.as_slice())?;
            line.word(plain_word(*plain))?;
            put_looked(line, *answer)
        }
        RegEntry::Claim { caller, larval } => put_call_on(line, *caller, b"claim", *larval),
        RegEntry::End {
            caller,
            larval,
            answer,
        } => {
            put_call_on(line, *caller, b"end", *larval)?;
            put_end(line, answer)
        }
        RegEntry::Waited { caller, larval } => put_call_on(line, *caller, b"waited", *larval),
        RegEntry::Unlist {
            caller,
            driver,
            answer,
        } => {
            line.call(*caller, b"unlist")?;
            line.word(driver.as_slice())?;
            put_unlisted(line, *answer)
        }
        RegEntry::Get { caller, id, ok } => {
            put_call_on(line, *caller, b"get", *id)?;
            line.word(get_word(*ok))
        }
        RegEntry::Put { caller, id } => put_call_on(line, *caller, b"put", *id),
        RegEntry::Refs { caller, driver } => {
            line.call(*caller, b"refs")?;
            line.word(driver.as_slice())
        }
        RegEntry::List { caller } => line.call(*caller, b"list"),
    }
}

/// The line of a registry's event, whose numbers are within their types.
#[tactic(auto, using(crate::proofs::SentenceLemmas::ended))]
pub fn registry_line(alloc: Global, event: &RegEntry) -> Result<Bytes, AllocError>
    ensures text { IfOk result (λ text. text ≡ sentence (reg_words event.now)) }
    ensures fits { OnOk result (fits event.now ≡ true) }
{
    let mut line = SentenceBuilder::new(alloc, b"r")?;
    put_event(&mut line, event)?;
    line.end()
}
