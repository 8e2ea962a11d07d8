//! The pipelines of a script, as it knows them.

ghost use Rattle.std.specs.Prelude.{◌≡◌, ◌++◌, ◌∷◌, [], length, OnOk, OnErr};
ghost use Rattle.recorded_calls.specs.Pipelines.{origin_at};

use reply_text::Origin;
use std::alloc::{AllocError, Global};
use std::marker::Model;

/// From which line of which client's script each request is that a pipeline accepted, by the requests' numbers.
#[derive(Drop)]
pub struct RequestLines {
    inner: Vec<Origin>,
}

impl Model for RequestLines {
    ghost use Rattle.std.specs.Prelude.{List};
    ghost use Rattle.reply_text.specs.declared.origin.Origin.{Origin};

    ghost Value = { List Origin };

    ghost view = { λ lines. lines.inner.items };
}

impl RequestLines {
    /// No lines. No memory is taken.
    pub fn new(alloc: Global) -> RequestLines
        ensures { result ≡ [] }
    {
        RequestLines {
            inner: Vec::new(alloc),
        }
    }

    /// Adds the line of the next request. Want of memory leaves the lines as they were.
    pub fn push(&mut self, line: Origin) -> Result<(), AllocError>
        ensures ok { OnOk result (self.new ≡ self.old ++ line ∷ []) }
        ensures err { OnErr result (self.new ≡ self.old) }
    {
        self.inner.push(line)?;
        Ok(())
    }

    /// The line of a request, and line 0 of client 0 where no request has the number.
    pub fn at(&self, number: u64) -> Origin
        ensures { result ≡ origin_at self.now number }
    {
        match self.inner.get(number as usize) {
            Some(line) => *line,
            None => Origin { client: 0, line: 0 },
        }
    }

    /// How many requests there are.
    pub fn count(&self) -> u64
        ensures { result ≡ length self.now }
    {
        self.inner.len() as u64
    }
}

/// A pipeline that its script made.
#[derive(Drop)]
pub struct PipelineView {
    /// Its number on the board.
    pub number: u64,
    /// How many requests may wait in a queue, or in a chain's line, before it is full; `None` for a pad.
    pub bound: Option<u32>,
    /// Whether it is held.
    pub held: bool,
    /// Whether no worker may take from it: it is a pad whose mask is empty.
    pub mask_is_empty: bool,
    /// The lines of the requests that it accepted.
    pub lines: RequestLines,
    /// How many completions it handed out.
    pub delivered: u64,
}

impl Model for PipelineView {
    ghost use Rattle.dialogues.specs.ScriptState.{PipelineState as Known};

    ghost Value = { Known };

    ghost view = { λ p. record {
      number = p.number;
      bound = p.bound;
      held = p.held;
      mask_is_empty = p.mask_is_empty;
      lines = p.lines;
      delivered = p.delivered;
    } };
}
