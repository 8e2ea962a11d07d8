//! The answers to what pipelines hand out.

ghost use Rattle.std.specs.Prelude.{◌≡◌, ◌+◌, ◌*◌, ◌≤◌, ◌++◌, length, map, sum_by, OnOk};
ghost use Rattle.std.specs.List.{flat_map};
ghost use Rattle.board.specs.HandedOut.{completions};
ghost use Rattle.dialogues.specs.PipelineCommands.{completion_said};
ghost use Rattle.reply_text.specs.Answers.{text_of};
ghost use Rattle.transforms.specs.Finish.{finished_length};
ghost use Rattle.script_session.specs.ReplyText.{callback_room};
ghost use Rattle.script_session.specs.CallbackText.{callback_said};

use kc_base::{Callback, Callbacks, Errno};
use recorded_calls::RequestLines;
use reply_text::{Answer, Origin, Reply};
use std::alloc::AllocError;
use transforms::Finished;

fn completed(of: Origin, finished: Finished) -> Answer
    ensures { result ≡ completion_said of finished }
{
    match finished {
        Finished::Bytes(bytes) => Answer::Done { of, bytes },
        Finished::BadMsg => Answer::Failed {
            of,
            errno: Errno::EBADMSG,
        },
        Finished::Invalid => Answer::Failed {
            of,
            errno: Errno::EINVAL,
        },
    }
}

fn told(lines: &RequestLines, callback: Callback<Finished>) -> Answer
    ensures { result ≡ callback_said lines.now callback }
{
    match callback {
        Callback::Started(number) => Answer::Started {
            of: lines.at(number),
        },
        Callback::Done(number, finished) => completed(lines.at(number), finished),
    }
}

/// Adds an answer for each callback, each under the line of its request. The answers keep the callbacks' bytes.
pub fn tell(
    lines: &RequestLines,
    callbacks: Callbacks<Finished>,
    answers: &mut Vec<Answer>,
) -> Result<(), AllocError>
    ensures { OnOk result (answers.new.items ≡ answers.old.items ++ map (callback_said lines.now) callbacks.list) }
{
    for callback in callbacks.into_vec() {
        answers.push(told(lines, callback))?;
    }
    Ok(())
}

/// How many requests are complete by these callbacks.
pub fn count_completions(callbacks: &[Callback<Finished>]) -> u64
    ensures { result ≡ completions callbacks.now }
{
    callbacks
        .iter()
        .filter(|callback| matches!(callback, Callback::Done(..)))
        .count() as u64
}

/// Adds the text of an answer, for which there is room. No memory is taken.
pub fn put_short(reply: &mut Reply, answer: Answer)
    requires { length (text_of answer) ≤ reply.old.spare }
    ensures text { reply.new.text ≡ reply.old.text ++ text_of answer }
    ensures left { reply.old.spare ≤ reply.new.spare + length (text_of answer) }
{
    let _ = reply.put(&answer);
}

// The same of bytes, which aren't copied.
fn put_bytes(reply: &mut Reply, of: Origin, bytes: &[u8])
    requires { 36 + 2 * length bytes.now ≤ reply.old.spare }
    ensures text { reply.new.text ≡ reply.old.text ++ text_of (Answer.Done of bytes.now) }
    ensures left { reply.old.spare ≤ reply.new.spare + (36 + 2 * length bytes.now) }
{
    let _ = reply.put_done(of, bytes);
}

fn put_completed(reply: &mut Reply, of: Origin, finished: &Finished)
    requires { 36 + 2 * finished_length finished.now ≤ reply.old.spare }
    ensures text { reply.new.text ≡ reply.old.text ++ text_of (completion_said of finished.now) }
    ensures left { reply.old.spare ≤ reply.new.spare + (36 + 2 * finished_length finished.now) }
{
    match finished {
        Finished::Bytes(bytes) => put_bytes(reply, of, bytes.as_slice()),
        Finished::BadMsg => {
            let errno = Errno::EBADMSG;
            put_short(reply, Answer::Failed { of, errno })
        }
        Finished::Invalid => {
            let errno = Errno::EINVAL;
            put_short(reply, Answer::Failed { of, errno })
        }
    }
}

fn put_callback(reply: &mut Reply, lines: &RequestLines, callback: &Callback<Finished>)
    requires { callback_room callback.now ≤ reply.old.spare }
    ensures text { reply.new.text ≡ reply.old.text ++ text_of (callback_said lines.now callback.now) }
    ensures left { reply.old.spare ≤ reply.new.spare + callback_room callback.now }
{
    match callback {
        Callback::Started(number) => {
            let of = lines.at(*number);
            put_short(reply, Answer::Started { of })
        }
        Callback::Done(number, finished) => put_completed(reply, lines.at(*number), finished),
    }
}

/// Adds the text of each callback, under the line of its request. There is room for it, and no memory is taken.
pub fn put_callbacks(reply: &mut Reply, lines: &RequestLines, callbacks: &[Callback<Finished>])
    requires { sum_by callback_room callbacks.now ≤ reply.old.spare }
    ensures text { reply.new.text ≡ reply.old.text ++ flat_map text_of (map (callback_said lines.now) callbacks.now) }
    ensures left { reply.old.spare ≤ reply.new.spare + sum_by callback_room callbacks.now }
{
    for callback in callbacks {
        put_callback(reply, lines, callback);
    }
}
