//! Jobs as a board runs them.

use crate::ask::Ask;
use crate::job::Job;
use crate::request::Finished;
use board::Work;
use std::alloc::{AllocError, Global};
use std::sync::Arc;

impl Work for Job {
    type Ask = Ask;

    type Out = Finished;

    ghost use Rattle.std.specs.Arc.{arc_value};
    ghost use Rattle.transforms.specs.Finish.{finished_of};
    ghost use Rattle.transforms.specs.AskValue.{ask_value, ask_size};

    ghost asked = { λ job. arc_value job.ask };

    ghost meaning = { λ ask. finished_of (ask_value ask) };

    ghost weight = { ask_size };

    fn ask(&self, _alloc: Global) -> Result<Arc<Ask, Global>, AllocError> {
        self.ask.clone()
    }

    fn size(&self) -> u64 {
        let request = &self.ask.request;
        request.iv.len() as u64 + request.aad.len() as u64 + request.text.len() as u64
    }

    fn run(self) -> Finished {
        Job::run(self)
    }
}
