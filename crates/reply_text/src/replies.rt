//! Answers put into a reply.

ghost use Rattle.std.specs.Prelude.{◌≡◌, ◌+◌, ◌≤◌, ◌∷◌, ◌++◌, [], codes, length, IsOk, OnOk, OnErr};
ghost use Rattle.std.specs.Fmt.{decimal};
ghost use Rattle.reply_text.specs.Answers.{sentence, heading, listed_word, text_of};
ghost use Rattle.reply_text.specs.Written.{Puts};

use crate::answers::Answer;
use crate::origin::Origin;
use crate::reply::Reply;
use crate::sentences::{say, say_done, say_numbered, say_told, say_value};
use itoa::Buffer;
use std::alloc::AllocError;

// A line with a word and a count.
fn say_count(reply: &mut Reply, line: u32, word: &[u8], count: u64) -> Result<(), AllocError>
    ensures { Puts (sentence (decimal line ∷ word.now ∷ decimal count ∷ [])) reply.old reply.new result }
{
    let mut number = Buffer::new();
    say_numbered(reply, line, &[word, number.format(count).as_bytes()])
}

fn listed_word(listed: bool) -> &'static [u8]
    ensures { result.now ≡ listed_word listed }
{
    if listed { b"listed" } else { b"unlisted" }
}

fn say_refs(reply: &mut Reply, line: u32, count: u64, listed: bool) -> Result<(), AllocError>
    ensures { Puts (text_of (Answer.Refs line count listed)) reply.old reply.new result }
{
    let mut number = Buffer::new();
    let count = number.format(count).as_bytes();
    say_numbered(
        reply,
        line,
        &[b"refs".as_slice(), count, listed_word(listed)],
    )
}

// A line with a word, a name and what the name came to.
fn say_name(
    reply: &mut Reply,
    line: u32,
    word: &[u8],
    name: &[u8],
    found: &[u8],
) -> Result<(), AllocError>
    ensures { Puts (sentence (decimal line ∷ word.now ∷ name.now ∷ found.now ∷ [])) reply.old reply.new result }
{
    say_numbered(reply, line, &[word, name, found])
}

fn say_alg(
    reply: &mut Reply,
    line: u32,
    name: &[u8],
    driver: &[u8],
    priority: u32,
    refs: u64,
) -> Result<(), AllocError>
    ensures { Puts (text_of (Answer.Alg line name.now driver.now priority refs)) reply.old reply.new result }
{
    let mut first = Buffer::new();
    let mut second = Buffer::new();
    let priority = first.format(priority).as_bytes();
    let refs = second.format(refs).as_bytes();
    say_numbered(
        reply,
        line,
        &[b"alg".as_slice(), name, driver, priority, refs],
    )
}

fn say_end(reply: &mut Reply, label: &[u8], count: u64) -> Result<(), AllocError>
    ensures { Puts (text_of (Answer.End label.now count)) reply.old reply.new result }
{
    let mut number = Buffer::new();
    say(reply, b"end", &[label, number.format(count).as_bytes()])
}

// The line above a client's text.
fn say_heading(reply: &mut Reply, client: u32) -> Result<(), AllocError>
    ensures { Puts (heading client) reply.old reply.new result }
{
    let mut number = Buffer::new();
    say(reply, b"client", &[number.format(client).as_bytes()])
}

// A text as it is.
fn say_text(reply: &mut Reply, text: &[u8]) -> Result<(), AllocError>
    ensures { Puts text.now reply.old reply.new result }
{
    reply.reserve(text.len())?;
    reply.append(text);
    Ok(())
}

fn say_answer(reply: &mut Reply, answer: &Answer) -> Result<(), AllocError>
    ensures { Puts (text_of answer.now) reply.old reply.new result }
{
    match answer {
        Answer::Ok { line } => say_numbered(reply, *line, &[b"ok".as_slice()]),
        Answer::Value { line, bytes } => say_value(reply, *line, bytes.as_slice()),
        Answer::Made { line, driver } => {
            say_numbered(reply, *line, &[b"ok".as_slice(), driver.as_slice()])
        }
        Answer::Refused { line, errno } => say_numbered(reply, *line, &[errno.name().as_bytes()]),
        Answer::Malformed { line } => say_numbered(reply, *line, &[b"malformed".as_slice()]),
        Answer::Probed { line, name, driver } => {
            say_name(reply, *line, b"probed", name.as_slice(), driver.as_slice())
        }
        Answer::Unprobed { line, name, errno } => {
            let errno = errno.name().as_bytes();
            say_name(reply, *line, b"unprobed", name.as_slice(), errno)
        }
        Answer::Refs {
            line,
            count,
            listed,
        } => say_refs(reply, *line, *count, *listed),
        Answer::Alg {
            line,
            name,
            driver,
            priority,
            refs,
        } => say_alg(
            reply,
            *line,
            name.as_slice(),
            driver.as_slice(),
            *priority,
            *refs,
        ),
        Answer::Listed { line, count } => say_count(reply, *line, b"listed", *count),
        Answer::Started { of } => say_told(reply, *of, &[b"started".as_slice()]),
        Answer::Done { of, bytes } => say_done(reply, *of, bytes.as_slice()),
        Answer::Failed { of, errno } => {
            say_told(reply, *of, &[b"fail".as_slice(), errno.name().as_bytes()])
        }
        Answer::Polled { line, count } => say_count(reply, *line, b"polled", *count),
        Answer::Drained { line, count } => say_count(reply, *line, b"drained", *count),
        Answer::End { label, count } => say_end(reply, label.as_slice(), *count),
    }
}

impl Reply {
    /// Adds the text of an answer at the end. Want of memory comes only where the room is too small for the text, and
    /// leaves all as it was.
    pub fn put(&mut self, answer: &Answer) -> Result<(), AllocError>
        ensures ok { OnOk result (self.new.text ≡ self.old.text ++ text_of answer.now) }
        ensures err { OnErr result (self.new ≡ self.old) }
        ensures room { length (text_of answer.now) ≤ self.old.spare → IsOk result }
        // No more of the room is used than the text's length.
        ensures left { self.old.spare ≤ self.new.spare + length (text_of answer.now) }
    {
        say_answer(self, answer)
    }

    /// Adds what a request gave, as [`Reply::put`] adds `Answer::Done`, without a copy of the bytes.
    pub fn put_done(&mut self, of: Origin, bytes: &[u8]) -> Result<(), AllocError>
        ensures ok { OnOk result (self.new.text ≡ self.old.text ++ text_of (Answer.Done of bytes.now)) }
        ensures err { OnErr result (self.new ≡ self.old) }
        ensures room { length (text_of (Answer.Done of bytes.now)) ≤ self.old.spare → IsOk result }
        ensures left { self.old.spare ≤ self.new.spare + length (text_of (Answer.Done of bytes.now)) }
    {
        say_done(self, of, bytes)
    }

    /// Adds the line `end` of this label, as [`Reply::put`] adds `Answer::End`, without a copy of the label.
    pub fn put_end(&mut self, label: &[u8], count: u64) -> Result<(), AllocError>
        ensures ok { OnOk result (self.new.text ≡ self.old.text ++ text_of (Answer.End label.now count)) }
        ensures err { OnErr result (self.new ≡ self.old) }
        ensures room { length (text_of (Answer.End label.now count)) ≤ self.old.spare → IsOk result }
        ensures left { self.old.spare ≤ self.new.spare + length (text_of (Answer.End label.now count)) }
    {
        say_end(self, label, count)
    }

    /// Adds the line `client K`, which stands above the text of client K. Want of memory comes as for [`Reply::put`].
    pub fn put_heading(&mut self, client: u32) -> Result<(), AllocError>
        ensures ok { OnOk result (self.new.text ≡ self.old.text ++ heading client) }
        ensures err { OnErr result (self.new ≡ self.old) }
        ensures room { length (heading client) ≤ self.old.spare → IsOk result }
        ensures left { self.old.spare ≤ self.new.spare + length (heading client) }
    {
        say_heading(self, client)
    }

    /// Adds a text as it is. Want of memory comes as for [`Reply::put`].
    pub fn put_text(&mut self, text: &[u8]) -> Result<(), AllocError>
        ensures ok { OnOk result (self.new.text ≡ self.old.text ++ text.now) }
        ensures err { OnErr result (self.new ≡ self.old) }
        ensures room { length text.now ≤ self.old.spare → IsOk result }
        ensures left { self.old.spare ≤ self.new.spare + length text.now }
    {
        say_text(self, text)
    }
}
