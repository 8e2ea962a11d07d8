//! Laws of dialogues and of the texts of scripts.

ghost use Rattle.std.specs.Prelude.{◌≡◌, ◌++◌, ℕ, List, Some};
ghost use Rattle.alg_registry.specs.declared.entry.RegEntry.{RegEntry};
ghost use Rattle.board.specs.declared.entry.BoardEntry.{BoardEntry};
ghost use Rattle.script_text.specs.declared.commands.Line.{Line};
ghost use Rattle.transforms.specs.declared.ask.Ask.{Ask};
ghost use Rattle.dialogues.specs.BoardCalls.{BoardCall};
ghost use Rattle.dialogues.specs.Dialogues.{Dialogue, followed};
ghost use Rattle.dialogues.specs.FirstCalls.{BeginsByNone, BeginsByTurn, BeginsSaying, BeginsAsking, BeginsPosting, BeginsLooking, BeginsLookingAll, BeginsInFirst, BeginsInLater, BeginsInLines, NoneFurther, CallsThenFurther, FurtherStay};
ghost use Rattle.dialogues.specs.GoingOn.{RegisteredStays, FoundStays, RegistryCallsGoOn, RegistryCallsJoin, RegistryUnasked, BoardCallsGoOn, BoardCallsJoin, BoardUncalled, NoCall, OneCall, OneLook, NothingThenCalls, CallsThenCalls, CallsInTurnAre, InTurnByAny, InTurnByOne, InTurnByMore, LooksAtOnce, NothingThenCallsBy, CallsThenCallsBy, CallsByAre};
ghost use Rattle.dialogues.specs.Continuations.{LeadsNowhere, LeadsOn, LeadsToEnd};
ghost use Rattle.dialogues.specs.References.{ReferencesFollow};
ghost use Rattle.dialogues.specs.RegistryCalls.{RegCall};
ghost use Rattle.dialogues.specs.Texts.{IsText};
ghost use Rattle.dialogues.specs.Transcripts.{Transcript, IsTranscript, joined, transcript_of};
ghost use Rattle.dialogues.specs.ScriptState.{ScriptState};

/// A script has one text over two histories.
pub fn one_text()
    ensures { (workers : ℕ) (script_state : ScriptState) (caller : ℕ) (lines : List Line)
        (r : List RegEntry) (b : List (BoardEntry Ask)) (x y : List ℕ)
        → IsText workers script_state caller lines r b x → IsText workers script_state caller lines r b y → x ≡ y }
{}

/// Where one dialogue follows another, its turn follows the other's.
pub fn turns_follow()
    ensures { (first : Dialogue) (later : ScriptState → Dialogue) (turn : Transcript) (script_state : ScriptState)
        (r : List RegCall) (b : List BoardCall)
        → IsTranscript first turn → turn.after ≡ Some script_state
        → transcript_of (followed first later) (turn.registry ++ r) (turn.board ++ b)
        ≡ joined turn (transcript_of (later script_state) r b) }
{}

/// A caller's calls on the registry stay as its history goes on, and only what it asked adds to them.
pub fn registry_calls_go_on()
    ensures registered { RegisteredStays }
    ensures found { FoundStays }
    ensures goes_on { RegistryCallsGoOn }
    ensures joins { RegistryCallsJoin }
    ensures unasked { RegistryUnasked }
{}

/// A caller's calls on the board stay as its history goes on, and only what it called adds to them.
pub fn board_calls_go_on()
    ensures goes_on { BoardCallsGoOn }
    ensures joins { BoardCallsJoin }
    ensures uncalled { BoardUncalled }
{}

/// Calls in turn, one by one; and that they are the caller's further calls.
pub fn calls_in_turn()
    ensures none { NoCall }
    ensures one { OneCall }
    ensures look { OneLook }
    ensures first { NothingThenCalls }
    ensures after { CallsThenCalls }
    ensures are { CallsInTurnAre }
{}

/// Calls with several looks at once: calls in turn are such, and with at most one look at once they are in turn.
pub fn calls_at_once()
    ensures any { InTurnByAny }
    ensures one { InTurnByOne }
    ensures more { InTurnByMore }
    ensures looks { LooksAtOnce }
    ensures first { NothingThenCallsBy }
    ensures after { CallsThenCallsBy }
    ensures are { CallsByAre }
{}

/// A script's lines, one by one, and the texts that they come to.
pub fn lines_lead()
    ensures nowhere { LeadsNowhere }
    ensures on { LeadsOn }
    ensures end { LeadsToEnd }
{}

/// By which calls a dialogue begins: its first ones, whatever looks come to that have come to nothing.
pub fn first_calls()
    ensures none { BeginsByNone }
    ensures turn { BeginsByTurn }
    ensures says { BeginsSaying }
    ensures asks { BeginsAsking }
    ensures posts { BeginsPosting }
    ensures look { BeginsLooking }
    ensures looks { BeginsLookingAll }
    ensures first { BeginsInFirst }
    ensures later { BeginsInLater }
    ensures lines { BeginsInLines }
{}

/// A caller's further calls on the registry, and what stays of them as its history goes on.
pub fn further_calls()
    ensures none { NoneFurther }
    ensures after { CallsThenFurther }
    ensures stay { FurtherStay }
{}

/// Who got more references of an entry than it gave back has one to give back, by its own entries alone.
pub fn references_follow()
    ensures { ReferencesFollow }
{}
