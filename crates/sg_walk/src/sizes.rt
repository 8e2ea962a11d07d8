//! The sizes of segments that lie within one piece of memory.

ghost use Rattle.std.specs.Prelude.{◌≡◌, length, IfOk};
ghost use Rattle.sg_walk.specs.Segments.{cut_sizes};
ghost use Rattle.sg_walk.specs.Layout.{cut_within};

use std::alloc::{AllocError, Global};
use std::marker::Model;

/// How many bytes each of some segments has, which lie one behind the other.
#[derive(Debug, Drop)]
pub struct Sizes {
    items: Vec<usize>,
}

impl Model for Sizes {
    ghost use Rattle.std.specs.Prelude.{List, ℕ};

    ghost Value = { List ℕ };

    ghost view = { λ sizes. sizes.items.items };
}

impl Sizes {
    pub fn from_vec(items: Vec<usize>) -> Sizes
        ensures { result ≡ items.items }
    {
        Sizes { items }
    }

    /// How many segments there are.
    pub fn count(&self) -> usize
        ensures { result ≡ length self.now }
    {
        self.items.len()
    }

    fn copy(&self, alloc: Global) -> Result<Sizes, AllocError>
        ensures { IfOk result (λ copy. copy ≡ self.now) }
    {
        Ok(Sizes {
            items: self.items.to_vec(alloc)?,
        })
    }

    /// Keeps of each segment what is among the first `len` bytes of all.
    fn cut(&mut self, len: usize)
        ensures { self.new ≡ cut_sizes len self.old }
    {
        shorten_each(&mut self.items, len);
    }
}

fn shorten_each(sizes: &mut [usize], len: usize)
    ensures { sizes.new ≡ cut_sizes len sizes.old }
{
    let mut rest = len;
    for size in sizes.iter_mut() {
        let all = *size;
        *size = all.min(rest);
        rest = rest.saturating_sub(all);
    }
}

/// A copy of the sizes, where some are given.
pub fn copy_of(alloc: Global, sizes: &Option<Sizes>) -> Result<Option<Sizes>, AllocError>
    ensures { IfOk result (λ copy. copy ≡ sizes.now) }
{
    match sizes {
        Some(sizes) => Ok(Some(sizes.copy(alloc)?)),
        None => Ok(None),
    }
}

/// Keeps of each segment what is among the first `len` bytes of all, where sizes are given.
pub fn cut_to(sizes: &mut Option<Sizes>, len: usize)
    ensures { sizes.new ≡ cut_within len sizes.old }
{
    if let Some(sizes) = sizes {
        sizes.cut(len);
    }
}
