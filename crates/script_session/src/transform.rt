//! A live transform: an entry of the registry in use, with its key and its tag size, and its pipeline where it has one.

ghost use Rattle.std.specs.Prelude.{◌≡◌, ◌⊎◌, true, false, ◌<◌, ◌^◌, length, Some, None, MatchOption, OnOk, OnErr, MatchResult};
ghost use Rattle.std.specs.Arc.{arc_value};
ghost use Rattle.std.specs.Option.{option_copied};
ghost use Rattle.transforms.specs.Plans.{takes_key, takes_tag};
ghost use Rattle.dialogues.specs.AllocAndFree.{new_live};
ghost use Rattle.dialogues.specs.BoardCalls.{asked_by};
ghost use Rattle.script_session.specs.Keyed.{with_line, held_as, manned_as, delivering, MayDeliver, IsJob, IsNoJob};

use kc_base::{Bytes, Errno};
use recorded_calls::PipelineView;
use reply_text::Origin;
use std::alloc::{AllocError, Global};
use std::marker::Model;
use std::sync::Arc;
use templates::Plan;
use transforms::{Ask, Job, Keyed, Request, TfmErr, largest_tag_size, prepare, tag_size};

/// A transform between its allocation and its release. Contracts see it as a row of the script's state.
#[derive(Drop)]
pub struct Transform {
    label: Bytes,
    /// The entry of the registry on which it stands.
    id: u64,
    plan: Plan,
    keyed: Option<Arc<Keyed>>,
    tag_size: u32,
    /// Where its requests wait, if they aren't done at their line.
    pipe: Option<PipelineView>,
}

impl Model for Transform {
    ghost use Rattle.std.specs.Prelude.{◌≡◌, true};
    ghost use Rattle.transforms.specs.Plans.{fits_tag};
    ghost use Rattle.dialogues.specs.ScriptState.{Live};
    ghost use Rattle.script_session.specs.Keyed.{key_in, IsKeyedBy};

    ghost Value = { Live };

    ghost view = { λ t. record { label = t.label; id = t.id; plan = t.plan; key = key_in t.keyed; tag_size = t.tag_size; pipe = t.pipe } };

    ghost invariant = { λ t. IsKeyedBy t.plan t.keyed × (fits_tag t.plan t.tag_size ≡ true) };
}

// What is kept of a key, for its transform and the jobs made of it.
fn shared(alloc: Global, keyed: Keyed) -> Result<Arc<Keyed>, TfmErr>
    ensures { MatchResult result (λ shared. arc_value shared ≡ keyed) (λ e. e ≡ TfmErr.Memory) }
{
    match Arc::new(alloc, keyed) {
        Ok(shared) => Ok(shared),
        Err(_) => Err(TfmErr::Memory),
    }
}

impl Transform {
    /// A transform with no key, and the greatest tag size of its mode. No memory is taken.
    pub fn new(label: Bytes, id: u64, plan: Plan, pipe: Option<PipelineView>) -> Transform
        ensures { result ≡ new_live label id plan pipe }
    {
        Transform {
            label,
            id,
            plan,
            keyed: None,
            tag_size: largest_tag_size(&plan),
            pipe,
        }
    }

    /// The script's name for it: 1 to 32 bytes.
    pub fn label(&self) -> &[u8]
        ensures { result.now ≡ self.now.label }
    {
        self.label.as_slice()
    }

    /// The number of the registry's entry that it stands on.
    pub fn id(&self) -> u64
        ensures { result ≡ self.now.id }
    {
        self.id
    }

    /// What it computes.
    pub fn plan(&self) -> &Plan
        ensures { result.now ≡ self.now.plan }
    {
        &self.plan
    }

    /// What it computes, under the key that was set last.
    pub fn keyed(&self) -> Option<&Keyed>
        ensures { MatchOption result (self.now.key ≡ None) (λ keyed. (keyed.now.0 ≡ self.now.plan) × (self.now.key ≡ Some keyed.now.1)) }
    {
        match &self.keyed {
            Some(keyed) => Some(keyed),
            None => None,
        }
    }

    /// Sets a key: `Inval` exactly where the mode doesn't take it. A refusal leaves an earlier key.
    pub fn set_key(&mut self, alloc: Global, key: &[u8]) -> Result<(), TfmErr>
        ensures { MatchResult result
            (λ _. (takes_key self.old.plan key.now ≡ true) × (self.new ≡ record self.old { key = Some key.now }))
            (λ e. ((e ≡ TfmErr.Memory) ⊎ ((e ≡ TfmErr.Inval) × (takes_key self.old.plan key.now ≡ false))) × (self.new ≡ self.old)) }
    {
        let keyed = Keyed::set(alloc, &self.plan, key)?;
        self.keyed = Some(shared(alloc, keyed)?);
        Ok(())
    }

    /// Sets the size of tags: EINVAL exactly where the mode doesn't take it. A refusal leaves the earlier size.
    pub fn set_tag_size(&mut self, size: u32) -> Result<(), Errno>
        ensures { MatchResult result
            (λ _. (takes_tag self.old.plan size ≡ true) × (self.new ≡ record self.old { tag_size = size }))
            (λ e. (e ≡ Errno.EINVAL) × (takes_tag self.old.plan size ≡ false) × (self.new ≡ self.old)) }
    {
        tag_size(&self.plan, size)?;
        self.tag_size = size;
        Ok(())
    }

    /// Its pipeline, where its driver's outermost template has one.
    pub fn pipe(&self) -> Option<&PipelineView>
        ensures { option_copied result ≡ self.now.pipe }
    {
        self.pipe.as_ref()
    }

    /// Its pipeline accepted a request of this line. Want of memory leaves all as it was.
    pub fn accept(&mut self, of: Origin) -> Result<(), AllocError>
        ensures ok { OnOk result (self.new ≡ with_line self.old of) }
        ensures err { OnErr result (self.new ≡ self.old) }
    {
        if let Some(pipe) = &mut self.pipe {
            pipe.lines.push(of)?;
        }
        Ok(())
    }

    /// Its pipeline is held, or let go.
    pub fn set_held(&mut self, held: bool)
        ensures { self.new ≡ held_as self.old held }
    {
        if let Some(pipe) = &mut self.pipe {
            pipe.held = held;
        }
    }

    /// Some worker may take from its pipeline, or none.
    pub fn set_mask_is_empty(&mut self, mask_is_empty: bool)
        ensures { self.new ≡ manned_as self.old mask_is_empty }
    {
        if let Some(pipe) = &mut self.pipe {
            pipe.mask_is_empty = mask_is_empty;
        }
    }

    /// Its pipeline handed so many completions out.
    pub fn deliver(&mut self, count: u64)
        requires { MayDeliver count self.old.pipe }
        ensures { self.new ≡ delivering self.old count }
    {
        if let Some(pipe) = &mut self.pipe {
            // No more than it accepted.
            prove!(count <= pipe.lines.count() - pipe.delivered);
            pipe.delivered += count;
        }
    }

    /// The job of a request of a line, under the key that was set last, with all the memory that it needs, or none
    /// where no key was set. `Inval` exactly where the mode doesn't take the request.
    pub fn job(
        &self,
        alloc: Global,
        client: u32,
        line: u32,
        request: Request,
    ) -> Result<Option<Job>, TfmErr>
        requires aad { length request.aad < 2 ^ 32 }
        requires text { length request.text.text < 2 ^ 32 }
        ensures { MatchResult result
            (λ made. MatchOption made (self.now.key ≡ None) (λ job. IsJob client line self.now request (asked_by (arc_value job.ask))))
            (λ e. IsNoJob self.now request e) }
    {
        let Some(keyed) = &self.keyed else {
            return Ok(None);
        };
        let ask = Ask {
            keyed: keyed.clone()?,
            authsize: self.tag_size,
            request,
            client,
            line,
        };
        match prepare(alloc, Arc::new(alloc, ask)?) {
            Ok(job) => Ok(Some(job)),
            Err(TfmErr::Inval) => Err(TfmErr::Inval),
            Err(TfmErr::Memory) => Err(TfmErr::Memory),
        }
    }
}
