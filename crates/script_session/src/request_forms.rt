//! Requests as lines give them, and single blocks.

ghost use Rattle.std.specs.Prelude.{◌≡◌, ◌+◌, ◌<◌, ◌≤◌, ◌^◌, [], length, IfOk, MatchResult, IsTrue};
ghost use Rattle.std_defs.specs.Aes.{IsKeyLength, seal};
ghost use Rattle.dialogues.specs.RequestCommands.{aes_said, request_of, aes, request};
ghost use Rattle.recorded_calls.specs.Passes.{known, CallsBoard};
ghost use Rattle.script_session.specs.States.{StateMatches, AreShared, counted};
ghost use Rattle.script_session.specs.PerformedDialogue.{Performs, StopsIn};

use crate::answers::{answer_errno, say};
use crate::pipeline_requests::take_job;
use crate::scripts::Session;
use aes_block::{Aes, BlockCipher};
use board::Work;
use kc_base::{Bytes, Errno};
use recorded_calls::Stop;
use reply_text::{Answer, Origin};
use sg_walk::Segs;
use shared_board::SharedBoard;
use std::alloc::Global;
use std::sync::Wait;
use transforms::{Dir, Job, Request, TfmErr};

// The block sealed under the key. `EINVAL` exactly where the key hasn't 16, 24 or 32 bytes, or the block hasn't 16.
fn sealed_block(key: &[u8], block: &[u8]) -> Result<[u8; 16], Errno>
    ensures { MatchResult result
        (λ sealed. IsKeyLength (length key.now) × (length block.now ≡ 16) × (sealed ≡ seal key.now block.now))
        (λ e. (e ≡ Errno.EINVAL) × ¬ (IsKeyLength (length key.now) × (length block.now ≡ 16))) }
{
    let aes = Aes::new(key)?;
    let Ok(mut sealed) = <[u8; 16]>::try_from(block) else {
        return Err(Errno::EINVAL);
    };
    aes.seal_block(&mut sealed);
    Ok(sealed)
}

/// The answer to `aes KEY BLOCK`.
pub fn answer_aes(alloc: Global, line: u32, key: &[u8], block: &[u8]) -> Result<Answer, Stop>
    ensures { IfOk result (λ answer. answer ≡ aes_said line key.now block.now) }
{
    match sealed_block(key, block) {
        Ok(sealed) => {
            let bytes = Bytes::copy_of(alloc, &sealed)?;
            Ok(Answer::Value { line, bytes })
        }
        Err(errno) => Ok(Answer::Refused { line, errno }),
    }
}

/// A request for the MAC of a text, with no IV and no associated bytes. No memory is taken.
pub fn mac_request(alloc: Global, text: Segs) -> Request
    ensures { result ≡ request_of Dir.Mac [] [] text }
{
    Request {
        dir: Dir::Mac,
        iv: Bytes::new(alloc),
        aad: Bytes::new(alloc),
        text,
    }
}

impl Session {
    // `aes KEY BLOCK`
    pub(crate) fn aes(
        &mut self,
        number: u32,
        key: &Bytes,
        block: &Bytes,
        answers: &mut Vec<Answer>,
    ) -> Result<(), Stop>
        requires state { StateMatches self.old }
        ensures { MatchResult result
            (λ _. Performs (aes self.old.script_state number key.now block.now) self.old self.new answers.old.items answers.new.items)
            (λ _. StopsIn (aes self.old.script_state number key.now block.now) self.old self.new) }
    {
        let answer = answer_aes(self.alloc, number, key.as_slice(), block.as_slice())?;
        say(answers, answer)
    }

    // Counts a request of so many bytes, where a pipeline accepted it.
    pub(crate) fn count(&mut self, accepted: bool, size: u64)
        requires { IsTrue accepted → (self.old.script_state.requests < 2 ^ 20) × (self.old.script_state.bytes + size ≤ 2 ^ 26) }
        ensures { self.new ≡ counted self.old accepted size }
    {
        if accepted {
            self.requests += 1;
            self.bytes += size;
        }
    }

    // `enc T IV AAD TEXT [backlog]`, `dec T IV AAD TEXT [backlog]` and `mac T TEXT [backlog]`
    pub(crate) fn request<R: Wait>(
        &mut self,
        rt: &R,
        board: &SharedBoard<Job>,
        number: u32,
        label: &Bytes,
        asked: Request,
        backlog: bool,
        answers: &mut Vec<Answer>,
    ) -> Result<(), Stop>
        requires at { CallsBoard board.now self.old.board }
        requires state { StateMatches self.old }
        requires shared { AreShared self.old.script_state.shared (known self.old.board) }
        requires aad { length asked.aad < 2 ^ 32 }
        requires text { length asked.text.text < 2 ^ 32 }
        ensures { MatchResult result
            (λ _. Performs (request self.old.script_state number label.now asked backlog)
            self.old self.new answers.old.items answers.new.items)
            (λ _. StopsIn (request self.old.script_state number label.now asked backlog) self.old self.new) }
    {
        let Some(place) = self.lives.place_of(label.as_slice()) else {
            return self.request_shared(rt, board, number, label, asked, backlog, answers);
        };
        let job = match self
            .lives
            .get(place)
            .job(self.alloc, self.client, number, asked)
        {
            Ok(Some(job)) => job,
            Ok(None) => return answer_errno(answers, number, Errno::ENOKEY),
            Err(TfmErr::Inval) => return answer_errno(answers, number, Errno::EINVAL),
            Err(TfmErr::Memory) => return Err(Stop::Memory),
        };
        let size = job.size();
        let of = Origin {
            client: self.client,
            line: number,
        };
        let live = self.lives.transforms.get_mut(&place).unwrap();
        let accepted = take_job(rt, board, &mut self.board, of, live, job, backlog, answers)?;
        self.count(accepted, size);
        Ok(())
    }
}
