//! Calls on several requests at once.

ghost use Rattle.std.specs.Prelude.{◌≡◌, ℕ, ◌+◌, ◌-◌, ◌<◌, ◌≤◌, ◌++◌, length, map, take, drop, false, true, MatchOption};
ghost use Rattle.std.specs.List.{All};
ghost use Rattle.reorder_window.specs.Windows.{submitted_of, taken_of, Refuses, NoneFor, IsRunBy, first_is_done};
ghost use Rattle.reorder_window.specs.History.{request_of};
ghost use Rattle.reorder_window.specs.Batches.{AddsEach, submitted_each, taken_each, finished_each, polled_each, with_taken_each, with_finished_each};

use crate::window::{Refusal, Window};

/// How many requests of an array were taken in, and why the next one wasn't.
#[derive(Clone, Copy, Debug)]
pub struct Accepted {
    pub count: usize,
    pub refusal: Option<Refusal>,
}

impl<R: Copy> Window<R> {
    /// Takes requests in from the first on, under the next numbers, until one is refused.
    pub fn submit_many(&mut self, requests: &[R], backlog: bool) -> Accepted
        ensures came { self.new ≡ record self.old { waiting = self.old.waiting ++ take result.count requests.now } }
        ensures why { MatchOption result.refusal
            (result.count ≡ length requests.now)
            (λ why. (result.count < length requests.now) × Refuses self.new backlog why) }
        ensures stands { AddsEach self.old self.new (submitted_each (submitted_of self.old) (take result.count requests.now)) }
    {
        for i in 0..requests.len() {
            match self.submit(requests[i], backlog) {
                Ok(_) => {}
                Err(why) => {
                    return Accepted {
                        count: i,
                        refusal: Some(why),
                    };
                }
            }
        }
        Accepted {
            count: requests.len(),
            refusal: None,
        }
    }

    /// Hands the requests of the least numbers that nobody has taken to the worker, at most as many as `out` has
    /// places. How many these are: they stand in the front of `out`, under the next numbers.
    pub fn take_many(&mut self, worker: u32, out: &mut [R]) -> usize
        ensures taken { self.old.waiting ≡ take result out.new ++ self.new.waiting }
        ensures came { self.new ≡ with_taken_each self.old worker (take result out.new) self.new.waiting }
        ensures count { result ≤ length out.new }
        ensures rest { drop result out.new ≡ drop result out.old }
        ensures why { result < length out.new → NoneFor self.new worker }
        ensures stands { AddsEach self.old self.new (taken_each (taken_of self.old) worker result) }
    {
        for i in 0..out.len() {
            match self.take(worker) {
                Some((_, request)) => out[i] = request,
                None => return i,
            }
        }
        out.len()
    }

    /// Records that the worker is done with the requests of `count` numbers from `first` on, until one is none that it
    /// runs. How many these are.
    pub fn finish_many(&mut self, first: u64, count: u64, worker: u32) -> u64
        ensures count { result ≤ count }
        ensures came { self.new ≡ with_finished_each self.old first result }
        ensures why { result < count → (r : R) → IsRunBy self.new (first + result) worker r → ⊥ }
        ensures stands { AddsEach self.old self.new (finished_each first worker result) }
    {
        // No number from `taken` on runs, and no sum below passes it.
        let most = count.min(self.taken().saturating_sub(first));
        for i in 0..most {
            if !self.finish(first + i, worker) {
                return i;
            }
        }
        most
    }

    /// Hands out the next requests that are done, in order, at most as many as `out` has places. How many these are:
    /// they stand in the front of `out`.
    pub fn poll_many(&mut self, out: &mut [R]) -> usize
        ensures polled { map request_of (take result self.old.running) ≡ take result out.new }
        ensures done { All (λ x. x.is_done ≡ true) (take result self.old.running) }
        ensures came { self.new ≡ record self.old { polled = self.old.polled + result; running = drop result self.old.running } }
        ensures count { result ≤ length out.new }
        ensures rest { drop result out.new ≡ drop result out.old }
        ensures why { result < length out.new → first_is_done self.new.running ≡ false }
        ensures stands { AddsEach self.old self.new (polled_each self.old.polled (take result out.new)) }
    {
        for i in 0..out.len() {
            match self.poll() {
                Some((_, request)) => out[i] = request,
                None => return i,
            }
        }
        out.len()
    }
}
