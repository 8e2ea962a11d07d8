//! What holds of every history that a board can have, and what such histories are.

ghost use Rattle.std.specs.Prelude.{◌≡◌, ℕ, ◌+◌, true, false, List, [], ◌∷◌, ◌++◌, take, Some, None};
ghost use Rattle.std.specs.declared.sync.Arc.{Arc};
ghost use Rattle.std.specs.declared.alloc.Global.{Global};
ghost use Rattle.std.specs.Arc.{arc_value};
ghost use Rattle.kc_base.specs.declared.callback_list.Callback.TheVariants as Callback;
ghost use Rattle.board.specs.declared.entry.Entered.TheVariants.{Busy, InProgress, NoSpace};
ghost use Rattle.board.specs.declared.entry.BoardEntry.{BoardEntry};
ghost use Rattle.board.specs.declared.entry.BoardEntry.TheVariants.{Submit, Take, Finish, Enq, Deq, Done, Go, Collect, Close, Mask};
ghost use Rattle.board.specs.Entries.{Starts, Completes, told, front, entries_of, delivered};
ghost use Rattle.board.specs.Legal.{IsRight, LegalBoard};
ghost use Rattle.board.specs.Order.{KeepsOrder, HandsOutTold, HandsOutInOrder, WaitsForEach, HandsOutAll, FrontIsFinished, FrontIsGreatest, FrontIsAll, PadTellsFront, QueueTellsSteps, StartsBackloggedAlone, StartsEachOnce, StartsBeforeCompletion};
ghost use Rattle.board.specs.Examples.{held_chain, crossed_chain, backward_chain, masked_pad, second_alone, held_requests, held_queue, second_first, first_alone};

/// In every legal history each pipeline completes its requests in their order, each once, however its jobs were taken
/// and finished, and hands out a front of what it told.
pub fn completions_in_order<A>()
    ensures in_order { (h : List (BoardEntry A)) (p : ℕ) → KeepsOrder h p }
    ensures front_of { (h : List (BoardEntry A)) (p : ℕ) → HandsOutTold h p }
    ensures handed { (h : List (BoardEntry A)) (p : ℕ) → HandsOutInOrder h p }
    ensures waits { (h : List (BoardEntry A)) (p : ℕ) → WaitsForEach h p }
{}

/// Where all were finished before its last collect, it has handed out the completions of all of them.
pub fn collects_hand_out_all<A>()
    ensures { (h : List (BoardEntry A)) (p caller to : ℕ) → HandsOutAll h p caller to }
{}

/// The front of a pipeline is the greatest number below which each request is finished. Where it is at all of the
/// pipeline's submissions, each of its requests is finished: what `collects_hand_out_all` asks for.
pub fn fronts_tell_all<A>()
    ensures below { (es : List (BoardEntry A)) (n : ℕ) → FrontIsFinished es n }
    ensures greatest { (es : List (BoardEntry A)) → FrontIsGreatest es }
    ensures all { (es : List (BoardEntry A)) → FrontIsAll es }
{}

/// In every legal history what a pipeline tells has `started` of backlogged requests alone, of each at most once, and
/// of each whose completion it tells exactly once before that.
pub fn starts_of_the_backlog<A>()
    ensures alone { (h : List (BoardEntry A)) (p n : ℕ) → StartsBackloggedAlone h p n }
    ensures once { (h : List (BoardEntry A)) (p n : ℕ) → StartsEachOnce h p n }
    ensures before { (h : List (BoardEntry A)) (p n k : ℕ) → StartsBeforeCompletion h p n k }
{}

/// A pad tells the completions up to its front, and a queue what its steps tell.
pub fn pads_and_queues_tell<A>()
    ensures pads { (h : List (BoardEntry A)) (p : ℕ) → PadTellsFront h p }
    ensures queues { (h : List (BoardEntry A)) (q : ℕ) → QueueTellsSteps h q }
{}

/// A chain whose second request is finished first has a legal history, and hands out each callback once, in order; and
/// so has one whose three requests are finished backwards. What waits in the queue isn't taken, a held chain passes
/// nothing on, the first that waits past the bound is told that it started, a chain's job has no Done, and its mask
/// stays full.
pub fn legal_chains()
    ensures legal { (a b c : Arc ℕ Global) → LegalBoard (crossed_chain a b c ++ Collect 0 0 2 ∷ Finish 1 0 0 ∷ Deq 3 0 2 None
        ∷ Take 0 0 2 ∷ Finish 0 0 2 ∷ Collect 0 0 5 ∷ Close 0 0 ∷ []) }
    ensures told { (a b c : Arc ℕ Global) → told (entries_of 0 (crossed_chain a b c ++ Finish 1 0 0 ∷ []))
        ≡ Starts 1 ∷ Starts 2 ∷ Completes 0 ∷ Completes 1 ∷ [] }
    ensures handed { (a b c : Arc ℕ Global)
        → delivered (λ n. n + 1) (entries_of 0 (crossed_chain a b c ++ Collect 0 0 2 ∷ Finish 1 0 0 ∷ [])) 4
        ≡ Callback.Done 0 (arc_value a + 1) ∷ Callback.Done 1 (arc_value b + 1) ∷ [] }
    ensures backwards { (a b c : Arc ℕ Global) → LegalBoard (backward_chain a b c ++ Collect 0 0 4 ∷ Close 0 0 ∷ []) }
    ensures order { (a b c : Arc ℕ Global) → told (entries_of 0 (backward_chain a b c))
        ≡ Starts 2 ∷ Completes 0 ∷ Completes 1 ∷ Completes 2 ∷ [] }
    ensures held { (a b c : Arc ℕ Global) → ¬ IsRight (held_chain a b c) (Deq 1 0 0 (Some 1)) }
    ensures newest { (a b c : Arc ℕ Global) → ¬ IsRight (held_chain a b c ++ Go 0 0 ∷ []) (Deq 1 0 0 (Some 2)) }
    ensures queued { (a b c : Arc ℕ Global) → ¬ IsRight (crossed_chain a b c) (Take 1 0 2) }
    ensures done { (a b c : Arc ℕ Global) → ¬ IsRight (crossed_chain a b c) (Done 1 0 0) }
    ensures early { (a b c : Arc ℕ Global) → ¬ IsRight (crossed_chain a b c) (Collect 0 0 3) }
    ensures unmasked { (a b c : Arc ℕ Global) → ¬ IsRight (held_chain a b c) (Mask 0 0 1) }
{}

/// A pad whose mask changes has a legal history. Under an empty mask nothing is submitted, and its maker alone takes; a
/// worker takes whose bit is set; no bit stands at or above the pad's lists.
pub fn legal_masks()
    ensures legal { (a b : Arc ℕ Global) → LegalBoard (second_alone a b ++ Take 2 0 0 ∷ Take 0 0 1 ∷ Finish 0 0 1
        ∷ Finish 2 0 0 ∷ Collect 0 0 2 ∷ Close 0 0 ∷ []) }
    ensures empty { (a b : Arc ℕ Global) → ¬ IsRight (masked_pad a b) (Submit 0 0 1 b) }
    ensures other { (a b : Arc ℕ Global) → ¬ IsRight (second_alone a b) (Take 1 0 0) }
    ensures above { (a b : Arc ℕ Global) → ¬ IsRight (masked_pad a b) (Mask 0 0 4) }
{}

/// A pad whose second job is finished first has a legal history. It hands out nothing past a job that still runs, and
/// what stands before that job, though others run; only who took a job finishes it, once; no worker submits; and it
/// isn't closed before all is handed out.
pub fn legal_pads()
    ensures legal { (a b : Arc ℕ Global) → LegalBoard (second_first a b ++ Collect 0 0 0 ∷ Finish 1 0 0 ∷ Collect 0 0 2 ∷ Close 0 0 ∷ []) }
    ensures front { (a b : Arc ℕ Global) → (front (entries_of 0 (second_first a b)) ≡ 0) × (front (entries_of 0 (first_alone a b)) ≡ 1) }
    ensures partial { (a b : Arc ℕ Global) → LegalBoard (first_alone a b ++ Collect 0 0 1 ∷ []) }
    ensures gap { (a b : Arc ℕ Global) → ¬ IsRight (second_first a b) (Collect 0 0 1) }
    ensures taker { (a b : Arc ℕ Global) → ¬ IsRight (second_first a b) (Finish 2 0 0) }
    ensures once { (a b : Arc ℕ Global) → ¬ IsRight (second_first a b) (Finish 2 0 1) }
    ensures worker { (a b : Arc ℕ Global) → ¬ IsRight (second_first a b) (Submit 2 0 2 a) }
    ensures closing { (a b : Arc ℕ Global) → ¬ IsRight (second_first a b) (Close 0 0) }
{}

/// A queue that is held while requests come and is then drained has a legal history, and its collects hand out each
/// callback once. A full queue takes nothing in without leave to wait; a held one serves nobody; the first that waits
/// past the bound is told that it started; and a collect hands out all that was told.
pub fn legal_queues()
    ensures legal { (a b c d : Arc ℕ Global) → LegalBoard (held_queue a b c d) }
    ensures told { (a b c d : Arc ℕ Global) → told (entries_of 0 (held_queue a b c d))
        ≡ Starts 2 ∷ Completes 0 ∷ Completes 1 ∷ Completes 2 ∷ [] }
    ensures first { (a b c d : Arc ℕ Global) → delivered (λ n. n + 1) (entries_of 0 (take 13 (held_queue a b c d))) 4
        ≡ Callback.Started 2 ∷ Callback.Done 0 (arc_value a + 1)
        ∷ Callback.Done 1 (arc_value b + 1) ∷ Callback.Done 2 (arc_value c + 1) ∷ [] }
    ensures again { (a b c d : Arc ℕ Global) → delivered (λ n. n + 1) (entries_of 0 (take 14 (held_queue a b c d))) 4 ≡ [] }
    ensures full { (a b c d : Arc ℕ Global) → ¬ IsRight (held_requests a b c d) (Enq 0 0 d false (Busy 3)) }
    ensures patient { (a b c d : Arc ℕ Global) → ¬ IsRight (held_requests a b c d) (Enq 0 0 d true NoSpace) }
    ensures held { (a b c d : Arc ℕ Global) → ¬ IsRight (held_requests a b c d) (Deq 0 0 0 (Some 2)) }
    ensures newest { (a b c d : Arc ℕ Global)
        → ¬ IsRight (held_requests a b c d ++ Go 0 0 ∷ Enq 0 0 d true (Busy 3) ∷ []) (Deq 0 0 0 (Some 3)) }
    ensures early { (a b c d : Arc ℕ Global) → ¬ IsRight (take 13 (held_queue a b c d)) (Collect 0 0 3) }
{}
