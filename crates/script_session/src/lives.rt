//! The live transforms of a script, in order of allocation and by label.

ghost use Rattle.std.specs.Prelude.{◌≡◌, ◌++◌, ◌∷◌, [], IsSome, None, Some, OnErr, IfOk, OnOk, length};
ghost use Rattle.std.specs.BTreeMap.{get, is_at};
ghost use Rattle.std.specs.Map.{remove_entry};
ghost use Rattle.std.specs.Ordering.{nat_cmp};
ghost use Rattle.script_session.specs.Filed.{AreFiled, lives_of, number_of};

use crate::transform::Transform;
use std::alloc::{AllocError, Global};
use std::collections::BTreeMap;

/// The live transforms. Each has a number, and a later one has a greater number, so `transforms` goes over them in
/// order of allocation. To find one takes time that grows with the logarithm of how many there are.
///
/// Lines write through loans of a transform, so it is the session's invariant that the labels lead where they
/// should.
#[derive(Drop)]
pub struct LiveTransforms {
    /// The number of each label's transform.
    pub(crate) labels: BTreeMap<Vec<u8>, u64>,
    pub(crate) transforms: BTreeMap<u64, Transform>,
    /// The number of the next.
    pub(crate) next: u64,
}

impl LiveTransforms {
    /// No transforms. No memory is taken.
    pub fn new(alloc: Global) -> LiveTransforms
        ensures none { lives_of result ≡ [] }
        ensures filed { AreFiled result }
    {
        LiveTransforms {
            labels: BTreeMap::new(alloc),
            transforms: BTreeMap::new(alloc),
            next: 0,
        }
    }

    pub fn len(&self) -> usize
        ensures { result ≡ length (lives_of self.now) }
    {
        self.transforms.len()
    }

    /// The number of a label's transform.
    pub fn place_of(&self, label: &[u8]) -> Option<u64>
        requires { AreFiled self.now }
        ensures { result ≡ number_of label.now self.now.transforms.entries }
    {
        self.labels.get(label).copied()
    }

    /// The transform of a number that `place_of` gave.
    pub fn get(&self, place: u64) -> &Transform
        requires { IsSome (get nat_cmp self.now.transforms place) }
        ensures { get nat_cmp self.now.transforms place ≡ Some result.now }
    {
        self.transforms.get(&place).unwrap()
    }

    /// Adds a transform behind the others, of a label that none of them has. Where memory is wanting they stay as they
    /// were.
    pub fn push(&mut self, alloc: Global, live: Transform) -> Result<(), AllocError>
        requires filed { AreFiled self.old }
        requires free { number_of live.label self.old.transforms.entries ≡ None }
        ensures added { OnOk result (lives_of self.new ≡ lives_of self.old ++ live ∷ []) }
        ensures unchanged { OnErr result (lives_of self.new ≡ lives_of self.old) }
        ensures filed { AreFiled self.new }
    {
        let place = self.next;
        // No script comes to 2^64 allocations.
        let Some(next) = place.checked_add(1) else {
            return Err(AllocError);
        };
        let label = live.label().to_vec(alloc)?;
        if self.transforms.insert(place, live).is_err() {
            return Err(AllocError);
        }
        if self.labels.insert(label, place).is_err() {
            self.transforms.remove(&place);
            return Err(AllocError);
        }
        self.next = next;
        Ok(())
    }

    /// Takes out the transform of a number that `place_of` gave. No memory is taken.
    pub fn remove(&mut self, place: u64) -> Transform
        requires filed { AreFiled self.old }
        requires there { IsSome (get nat_cmp self.old.transforms place) }
        ensures value { get nat_cmp self.old.transforms place ≡ Some result }
        ensures entries { self.new.transforms.entries ≡ remove_entry (is_at (nat_cmp place)) self.old.transforms.entries }
        ensures filed { AreFiled self.new }
    {
        let live = self.transforms.remove(&place).unwrap();
        self.labels.remove(live.label());
        live
    }

    /// Takes all out, in order of allocation. Where memory is wanting they stay.
    pub fn take_all(&mut self, alloc: Global) -> Result<Vec<Transform>, AllocError>
        requires { AreFiled self.old }
        ensures all { IfOk result (λ all. all.items ≡ lives_of self.old) }
        ensures unchanged { OnErr result (lives_of self.new ≡ lives_of self.old) }
        ensures filed { AreFiled self.new }
    {
        let mut all = Vec::new(alloc);
        all.reserve(self.transforms.len())?;
        self.labels.clear();
        while let Some((_, live)) = self.transforms.pop_first() {
            all.push_reserved(live);
        }
        Ok(all)
    }
}
