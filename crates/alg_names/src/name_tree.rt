//! A name as a tree: a word, and the names in its parentheses.

use kc_base::Bytes;
use std::alloc::{AllocError, Global};
use std::marker::Model;

/// A name within the limits: at most 127 bytes, 8 levels, and 4 arguments at each template. Contracts see it as its
/// tree.
#[derive(Drop)]
pub struct Name {
    word: Bytes,
    arguments: Vec<Name>,
}

impl Model for Name {
    ghost use Rattle.std.proofs.Common.{arith};
    ghost use Rattle.alg_names.specs.Name.{Tree, IsAllowed};
    ghost use Rattle.alg_names.specs.Code.{tree_code};
    ghost use Rattle.alg_names.specs.Built.{tree_with, nodes, nodes_fall};

    ghost Value = { Tree };

    ghost coded = { tree_code };

    ghost view = { λ a. tree_with a.word a.arguments.items };

    ghost invariant = { λ a. IsAllowed (tree_with a.word a.arguments.items) };

    ghost size = { nodes };

    ghost size_decreases = { λ a h. omega (arith, nodes_fall a.word a.arguments.items) };
}

impl Name {
    ghost use Rattle.std.specs.Prelude.{◌≡◌, ◌≤◌, ◌<◌, IfOk, All, length};
    ghost use Rattle.alg_names.specs.Name.{node, end, word_of, args_of, with_word_of, IsWord, IsAllowed};
    ghost use Rattle.alg_names.specs.Built.{nodes, tree_with};

    /// The name of a word and its arguments.
    pub(crate) fn from_parts(word: Bytes, arguments: Vec<Name>) -> Name
        requires { IsAllowed (tree_with word arguments.items) }
        ensures { result ≡ tree_with word arguments.items }
    {
        Name { word, arguments }
    }

    /// The word in front: 1 to 127 letters, digits, `-` and `_`.
    pub fn word(&self) -> &[u8]
        ensures word { result.now ≡ word_of self.now }
        ensures allowed { IsAllowed self.now }
    {
        self.word.as_slice()
    }

    /// The names in the parentheses, none for a word alone.
    pub fn args(&self) -> &[Name]
        ensures args { result.now ≡ args_of self.now }
        ensures allowed { IsAllowed self.now }
        ensures smaller { All (λ argument. nodes argument < nodes self.now) result.now }
    {
        self.arguments.as_slice()
    }

    /// The same name once more. Only want of memory is an error.
    pub fn copy(&self, alloc: Global) -> Result<Name, AllocError>
        ensures { IfOk result (λ copy. copy ≡ self.now) }
    {
        let word = Bytes::copy_of(alloc, self.word())?;
        let mut arguments = Vec::new(alloc);
        for argument in self.args() {
            let copy = argument.copy(alloc)?;
            arguments.push(copy)?;
        }
        Ok(Name { word, arguments })
    }

    /// The word as a name, without arguments. No memory is taken.
    pub fn alone(alloc: Global, word: Bytes) -> Name
        requires word { IsWord word }
        requires short { length word ≤ 127 }
        ensures { result ≡ node word end }
    {
        Name {
            word,
            arguments: Vec::new(alloc),
        }
    }

    /// The name with another word, of no greater length, before its arguments. No memory is taken.
    pub fn with_word(self, word: Bytes) -> Name
        requires word { IsWord word }
        requires short { length word ≤ length (word_of self) }
        ensures { result ≡ with_word_of self word }
    {
        let Name { word: _, arguments } = self;
        Name { word, arguments }
    }
}
