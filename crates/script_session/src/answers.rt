//! Answers of lines.

ghost use Rattle.std.specs.Prelude.{◌≡◌, ◌++◌, ◌∷◌, [], ℕ, Option as Perhaps, is_some, length, take, OnOk, OnErr};
ghost use Rattle.std.specs.List.{flat_map};
ghost use Rattle.reply_text.specs.Answers.{text_of};
ghost use Rattle.dialogues.specs.RegistryCommands.{enlist_said, unlist_said, refs_said};
ghost use Rattle.dialogues.specs.RequestCommands.{value_said};
ghost use Rattle.transforms.specs.Finish.{finished_value};

use alg_registry::{Enlisted, RefAnswer};
use kc_base::Errno;
use recorded_calls::Stop;
use reply_text::{Answer, Reply};
use std::alloc::AllocError;
use transforms::Finished;

/// Adds an answer.
pub fn say(answers: &mut Vec<Answer>, answer: Answer) -> Result<(), Stop>
    ensures { OnOk result (answers.new.items ≡ answers.old.items ++ answer ∷ []) }
{
    answers.push(answer)?;
    Ok(())
}

/// Adds a refusal.
pub fn answer_errno(answers: &mut Vec<Answer>, line: u32, errno: Errno) -> Result<(), Stop>
    ensures { OnOk result (answers.new.items ≡ answers.old.items ++ Answer.Refused line errno ∷ []) }
{
    say(answers, Answer::Refused { line, errno })
}

/// The answer to `register`.
pub fn enlisted_answer(line: u32, how: Enlisted) -> Answer
    ensures { result ≡ enlist_said line how }
{
    match how {
        Enlisted::Made(_) => Answer::Ok { line },
        Enlisted::Exist => Answer::Refused {
            line,
            errno: Errno::EEXIST,
        },
        Enlisted::NFile => Answer::Refused {
            line,
            errno: Errno::ENFILE,
        },
    }
}

/// The answer to a request that is done at its line.
pub fn value_answer(line: u32, finished: Finished) -> Answer
    ensures { result ≡ value_said line (finished_value finished) }
{
    match finished {
        Finished::Bytes(bytes) => Answer::Value { line, bytes },
        Finished::BadMsg => Answer::Refused {
            line,
            errno: Errno::EBADMSG,
        },
        Finished::Invalid => Answer::Refused {
            line,
            errno: Errno::EINVAL,
        },
    }
}

/// The answer to `unregister`.
pub fn unlisted_answer(line: u32, was_there: bool) -> Answer
    ensures { (id : Perhaps ℕ) → is_some id ≡ was_there → result ≡ unlist_said line id }
{
    if was_there {
        Answer::Ok { line }
    } else {
        Answer::Refused {
            line,
            errno: Errno::ENOENT,
        }
    }
}

/// The answer to `refs`.
pub fn refs_answer(line: u32, references: Option<RefAnswer>) -> Answer
    ensures { result ≡ refs_said line references }
{
    match references {
        Some(RefAnswer { count, listed }) => Answer::Refs {
            line,
            count,
            listed,
        },
        None => Answer::Refused {
            line,
            errno: Errno::ENOENT,
        },
    }
}

// Adds the texts of the answers. Where memory is wanting, those of the first have been added.
fn put_each(reply: &mut Reply, answers: &[Answer]) -> Result<(), AllocError>
    ensures ok { OnOk result (reply.new.text ≡ reply.old.text ++ flat_map text_of answers.now) }
    ensures front { OnErr result (take (length reply.old.text) reply.new.text ≡ reply.old.text) }
{
    for answer in answers {
        reply.put(answer)?;
    }
    Ok(())
}

/// Adds the texts of the answers, all or none.
pub fn put_all(reply: &mut Reply, answers: &[Answer]) -> Result<(), AllocError>
    ensures ok { OnOk result (reply.new.text ≡ reply.old.text ++ flat_map text_of answers.now) }
    ensures err { OnErr result (reply.new.text ≡ reply.old.text) }
{
    let len = reply.len();
    let put = put_each(reply, answers);
    if put.is_err() {
        reply.truncate(len);
    }
    put
}

/// Adds the text of one answer. Want of memory leaves the reply as it was.
pub fn put_one(reply: &mut Reply, answer: Answer) -> Result<(), Stop>
    ensures ok { OnOk result (reply.new.text ≡ reply.old.text ++ text_of answer) }
    ensures err { OnErr result (reply.new.text ≡ reply.old.text) }
{
    reply.put(&answer)?;
    Ok(())
}
