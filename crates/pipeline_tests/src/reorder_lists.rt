ghost use Rattle.std.specs.Prelude.{◌≡◌, [], ◌∷◌, None, length, IfOk};

use kc_base::{Callback, Callbacks};
use padata_core::Padata;
use std::alloc::Global;
use std::collections::VecDeque;
use std::test::Fail;

// The completions of a list: numbers with outcomes.
fn completions(alloc: Global, callbacks: &Callbacks<char>) -> Result<Vec<(u64, char)>, Fail> {
    let mut found = Vec::new(alloc);
    for callback in callbacks.as_slice() {
        if let Callback::Done(number, outcome) = callback {
            found.push((*number, *outcome))?;
        }
    }
    Ok(found)
}

#[test]
fn outcomes_come_in_the_order_of_submission(rt: HostRuntime) -> Result<(), Fail> {
    let mut pad = Padata::new(rt.alloc(), 2)?;
    pad.reserve(3)?;
    let mut into = Callbacks::new(rt.alloc());
    into.reserve(3)?;
    let numbers = [pad.submit('a'), pad.submit('b'), pad.submit('c')];
    let submitted = pad.submitted();
    let taken = [pad.take(), pad.take(), pad.take(), pad.take()];
    let waits = pad.has_waiting();
    pad.finish(2, 'z');
    pad.collect(&mut into);
    pad.finish(0, 'x');
    pad.collect(&mut into);
    let uncollected = pad.uncollected();
    pad.finish(1, 'y');
    pad.collect(&mut into);
    let jobs = [Some((0, 'a')), Some((1, 'b')), Some((2, 'c')), None];
    assert!(rt;
        numbers == [0, 1, 2] && submitted == 3 && taken == jobs && !waits && uncollected == 2
    );
    let want = [(0, 'x'), (1, 'y'), (2, 'z')];
    assert_eq!(rt; completions(rt.alloc(), &into)?.as_slice(), want.as_slice());
    Ok(())
}

// Five jobs that were all taken.
fn five_taken(alloc: Global) -> Result<Padata<char, char>, Fail>
    ensures { IfOk result (λ pad. (pad.lists ≡ 3) × (pad.collected ≡ 0)
        × (pad.outcomes ≡ None ∷ None ∷ None ∷ None ∷ None ∷ [])) }
{
    let mut pad = Padata::new(alloc, 3)?;
    pad.reserve(5)?;
    pad.submit('a');
    pad.submit('b');
    pad.submit('c');
    pad.submit('d');
    pad.submit('e');
    take_five(&mut pad);
    Ok(pad)
}

// Takes each of five.
fn take_five(pad: &mut Padata<char, char>)
    requires { (pad.old.collected ≡ 0) × (pad.old.outcomes ≡ []) × (length pad.old.waiting ≡ 5) }
    ensures lists { pad.new.lists ≡ pad.old.lists }
    ensures taken { (pad.new.collected ≡ 0) × (pad.new.outcomes ≡ None ∷ None ∷ None ∷ None ∷ None ∷ []) }
{
    let _ = (pad.take(), pad.take(), pad.take(), pad.take(), pad.take());
}

#[test]
fn each_collect_hands_out_what_is_ready(rt: HostRuntime) -> Result<(), Fail> {
    let mut pad = five_taken(rt.alloc())?;
    let mut into = Callbacks::new(rt.alloc());
    into.reserve(5)?;
    pad.finish(4, 'v');
    pad.collect(&mut into);
    pad.finish(1, 'w');
    pad.collect(&mut into);
    pad.finish(3, 'x');
    pad.collect(&mut into);
    let before = into.as_slice().len();
    pad.finish(0, 'y');
    pad.collect(&mut into);
    let (after, unfinished) = (into.as_slice().len(), pad.unfinished());
    pad.finish(2, 'z');
    pad.collect(&mut into);
    assert!(rt; before == 0 && after == 2 && unfinished == 1);
    let want = [(0, 'y'), (1, 'w'), (2, 'z'), (3, 'x'), (4, 'v')];
    assert_eq!(rt; completions(rt.alloc(), &into)?.as_slice(), want.as_slice());
    Ok(())
}

// A reorder list has these numbers with their outcomes.
fn is_list(list: &VecDeque<(u64, char)>, want: &[(u64, char)]) -> bool {
    if list.len() != want.len() {
        return false;
    }
    for k in 0..want.len() {
        if list[k] != want[k] {
            return false;
        }
    }
    true
}

// Of five numbers 1, 3 and 4 are finished, on three lists and then on two.
#[test]
fn each_number_waits_on_the_list_of_its_rest(rt: HostRuntime) -> Result<(), Fail> {
    let mut pad = five_taken(rt.alloc())?;
    pad.finish(4, 'e');
    pad.finish(1, 'b');
    pad.finish(3, 'd');
    let first = is_list(pad.list(0), &[(3, 'd')]);
    let second = is_list(pad.list(1), &[(1, 'b'), (4, 'e')]);
    let third = is_list(pad.list(2), &[]);
    assert!(rt; first && second && third);
    pad.remask(2)?;
    let first = is_list(pad.list(0), &[(4, 'e')]);
    let second = is_list(pad.list(1), &[(1, 'b'), (3, 'd')]);
    assert!(rt; first && second && pad.lists() == 2);
    Ok(())
}

#[test]
fn outcomes_move_to_other_lists(rt: HostRuntime) -> Result<(), Fail> {
    let mut pad = five_taken(rt.alloc())?;
    let mut into = Callbacks::new(rt.alloc());
    into.reserve(5)?;
    pad.finish(1, 'b');
    pad.finish(3, 'd');
    pad.finish(4, 'e');
    pad.remask(2)?;
    pad.finish(0, 'a');
    pad.finish(2, 'c');
    pad.collect(&mut into);
    let want = [(0, 'a'), (1, 'b'), (2, 'c'), (3, 'd'), (4, 'e')];
    assert_eq!(rt; completions(rt.alloc(), &into)?.as_slice(), want.as_slice());
    Ok(())
}
