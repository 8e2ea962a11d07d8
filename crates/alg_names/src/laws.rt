//! Laws of the grammar, for those who reason about names.
ghost use Rattle.std.specs.Prelude.{◌≡◌, ℕ, ◌++◌, List, Some, All};
ghost use Rattle.alg_names.specs.Name.{Tree, IsName, MayFollow, spelling, args_of};
ghost use Rattle.alg_names.specs.Spelled.{tree_of};

/// A text is the name of one tree, and is spelled as this tree says.
pub fn one_name()
    ensures tree { (text : List ℕ) (t u : Tree) → IsName text t → IsName text u → t ≡ u }
    ensures spelling { (text : List ℕ) (t : Tree) → IsName text t → text ≡ spelling t }
{}

/// No name begins another where `,`, `)` or nothing follows both.
pub fn no_front()
    ensures { (a b x y : List ℕ) (t u : Tree) → IsName a t → IsName b u → a ++ x ≡ b ++ y → MayFollow x → MayFollow y → (a ≡ b) × (t ≡ u) }
{}

/// The tree that is computed from a text is the one whose name it is.
pub fn computed_tree()
    ensures named { (text : List ℕ) (t : Tree) → IsName text t → tree_of text ≡ Some t }
    ensures computed { (text : List ℕ) (t : Tree) → tree_of text ≡ Some t → IsName text t }
{}

/// What stands in the parentheses of a name are names.
pub fn named_arguments()
    ensures { (text : List ℕ) (t : Tree) → IsName text t → All (λ argument. IsName (spelling argument) argument) (args_of t) }
{}
