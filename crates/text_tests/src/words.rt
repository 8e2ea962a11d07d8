//! Words, and what they ask of the program.

use command_line::parse_words;
use run_options::{Mode, ScriptOptions};
use std::alloc::Global;
use std::process::Abort;

// The words of a line, cut at each blank: two blanks have an empty word between them.
fn words_of(rt: &impl Abort, alloc: Global, line: &str) -> Vec<String> {
    let mut words = Vec::new(alloc);
    for word in line.split(' ') {
        let word = String::from_str(alloc, word).expect(rt, "memory");
        words.push(word).expect(rt, "memory");
    }
    words
}

// What the words ask for, or the error.
fn asked(rt: &impl Abort, alloc: Global, words: &[String]) -> String {
    let asked = match parse_words(alloc, words) {
        Ok(Mode::Script(it)) => format!(in alloc; "script {} {}", it.workers, it.trace),
        Ok(Mode::Clients(it)) => {
            format!(in alloc; "clients {} {} {}", it.clients, it.workers, it.trace)
        }
        Ok(Mode::Load(it)) => format!(in alloc; "load {} {} {}", it.workers, it.seed, it.count),
        Err(error) => format!(in alloc; "{error:?}"),
    };
    asked.expect(rt, "memory")
}

#[test]
fn no_words_ask_for_a_script(rt: HostRuntime) {
    let options = ScriptOptions {
        workers: 4,
        trace: false,
    };
    assert!(rt; parse_words(rt.alloc(), &[]) == Ok(Mode::Script(options)));
}

/// In a row stand words, and what they ask for: a script beside so many workers, and whether its trace; so many clients
/// beside so many workers, and whether their trace; a load beside so many, its seed and its count; or the error.
const ROWS: &str = "\
--|script 4 false
--workers 0|script 0 false
--workers=4|script 4 false
--workers 16 --trace|script 16 true
--trace --workers=9 --|script 9 true
--load 0|load 4 0 1000
--load 7 --count 0|load 4 7 0
--count=100000 --workers 1 --load=7|load 1 7 100000
--load 18446744073709551615|load 4 18446744073709551615 1000
|Syntax
help|Syntax
--help|Syntax
-h|Syntax
--version|Syntax
--clients 1|clients 1 4 false
--trace --clients=8 --workers 0|clients 8 0 true
--clients|Syntax
--clients 2 --clients 2|Syntax
--work 4|Syntax
--Workers 4|Syntax
-workers 4|Syntax
--workers|Syntax
--workers --trace|Syntax
--workers -1|Syntax
--workers 4 4|Syntax
--workers 4 --workers 4|Syntax
--trace --trace|Syntax
--trace=true|Syntax
--trace |Syntax
-- --trace|Syntax
--count 5|CountWithoutLoad
--clients 2 --count 5|CountWithoutLoad
--workers 17 --count x|CountWithoutLoad
--load 7 --trace|LoadWithTrace
--trace --count 5 --load x|LoadWithTrace
--clients 2 --load 1|LoadWithClients
--load 1 --count 5 --clients x|LoadWithClients
--workers 17|InvalidNumber
--clients 0|InvalidNumber
--clients 9|InvalidNumber
--clients 02|InvalidNumber
--workers 04|InvalidNumber
--workers 00|InvalidNumber
--workers +4|InvalidNumber
--workers=-0|InvalidNumber
--workers=|InvalidNumber
--workers |InvalidNumber
--workers 0x4|InvalidNumber
--workers \u{664}|InvalidNumber
--load 18446744073709551616|InvalidNumber
--load 7 --count 100001|InvalidNumber
--load 7 --count 01000|InvalidNumber
";

/// A row holds.
fn row_holds(rt: &impl Abort, alloc: Global, row: &str) {
    let (line, want) = row
        .split_once('|')
        .expect(rt, "words and what they ask for");
    let words = words_of(rt, alloc, line);
    assert!(rt; asked(rt, alloc, &words).as_str() == want, "{row}");
}

#[test]
fn words_ask_for_what_their_row_says(rt: HostRuntime) {
    for row in ROWS.lines() {
        row_holds(&rt, rt.alloc(), row);
    }
}
