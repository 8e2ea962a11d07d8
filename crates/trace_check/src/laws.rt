//! What holds of all histories and traces.

ghost use Rattle.std.specs.Prelude.{◌≡◌, ◌↔◌, ℕ, List, true};
ghost use Rattle.alg_registry.specs.declared.entry.RegEntry.{RegEntry};
ghost use Rattle.alg_registry.specs.Legal.{LegalReg};
ghost use Rattle.alg_registry.specs.Legal as registry;
ghost use Rattle.board.specs.declared.entry.BoardEntry.{BoardEntry};
ghost use Rattle.board.specs.Legal.{LegalBoard};
ghost use Rattle.board.specs.Legal as board;
ghost use Rattle.trace_text.specs.Trace.{trace_of, has_text, AreEvents};
ghost use Rattle.trace_check.specs.AskLines.{with_lines};
ghost use Rattle.trace_check.specs.declared.verdict.TraceVerdict.{TraceVerdict};
ghost use Rattle.trace_check.specs.Verdicts.{IsLegalTrace, IsVerdict};
ghost use Rattle.trace_check.specs.RegReasons as reg;
ghost use Rattle.trace_check.specs.BoardReasons as brd;

use trace_text::HasScriptLine;

/// Whether a board's events are legal depends on nothing of an ask, and their trace on its line alone. So the trace of
/// legal histories is a legal trace.
pub fn asks_are_lines<A: HasScriptLine>()
    ensures legal { (h : List (BoardEntry A)) → LegalBoard h ↔ LegalBoard (with_lines A.origin h) }
    ensures traced { (r : List RegEntry) (h : List (BoardEntry A)) → AreEvents A.origin r h → LegalReg r → LegalBoard h
        → IsLegalTrace (trace_of A.origin r h) }
{}

/// A text has one verdict.
pub fn one_verdict()
    ensures { (text : List ℕ) (v w : TraceVerdict) → IsVerdict text v → IsVerdict text w → v ≡ w }
{}

/// An event of a registry whose names can be printed is right exactly where none of its four parts is missing.
pub fn registry_reasons()
    ensures right { (h : List RegEntry) (e : RegEntry) → has_text e ≡ true
        → (registry.IsRight h e ↔ (reg.HasState h e × reg.HasCaller h e × reg.HasNumber h e × reg.HasAnswer h e)) }
{}

/// And so is an event of a board, after a legal history.
pub fn board_reasons<A>()
    ensures right { (h : List (BoardEntry A)) (e : BoardEntry A) → LegalBoard h
        → (board.IsRight h e ↔ (brd.HasState h e × brd.HasCaller h e × brd.HasNumber h e × brd.HasAnswer h e)) }
{}
