//! The parts of an input for several clients.

use script_text::cut_parts;
use std::alloc::Global;
use std::process::Abort;

/// The bytes of a text with `;` in the place of line feeds and `^` in that of carriage returns.
fn bytes_in(rt: &impl Abort, alloc: Global, text: &str) -> Vec<u8> {
    let mut bytes = Vec::new(alloc);
    for byte in text.bytes() {
        let byte = match byte {
            b';' => b'\n',
            b'^' => b'\r',
            byte => byte,
        };
        bytes.push(byte).expect(rt, "memory");
    }
    bytes
}

/// The parts one after another, each with `/` behind it.
fn joined(rt: &impl Abort, alloc: Global, input: &[u8], clients: u32) -> Vec<u8> {
    let parts = cut_parts(alloc, input, clients).expect(rt, "memory");
    let mut text = Vec::new(alloc);
    for part in parts.iter() {
        text.extend_from_slice(part.as_slice()).expect(rt, "memory");
        text.push(b'/').expect(rt, "memory");
    }
    text
}

/// In a row stand how many clients there are, an input, and its parts, each with `/` behind it.
const ROWS: &str = "\
1||//
2|a;b|a;b///
1|a;%%;b;|a;/b;/
1|a;%%;b|a;/b/
1|a;%%|a;//
2|%%;%%;|///
2|a;%%;b;%%;c;%%;d|a;/b;/c;%%;d/
3|a;%%;b;%%;c|a;/b;/c//
1|a;%%^;b|a;/b/
1|a;  %% ;b|a;/b/
1|a;%% b;%%%;#%%;c|a;%% b;%%%;#%%;c//
1|a %%;%%;c|a %%;/c/
1|a;%%^|a;%%^//
";

/// A row holds.
fn row_holds(rt: &impl Abort, alloc: Global, row: &str) {
    let (clients, rest) = row.split_once('|').expect(rt, "a number");
    let (input, want) = rest.split_once('|').expect(rt, "an input");
    let clients = clients.parse::<u32>().expect(rt, "a number");
    let input = bytes_in(rt, alloc, input);
    assert!(rt;
        joined(rt, alloc, &input, clients) == bytes_in(rt, alloc, want),
        "{row}"
    );
}

#[test]
fn inputs_are_cut_at_their_first_marks(rt: HostRuntime) {
    for row in ROWS.lines() {
        row_holds(&rt, rt.alloc(), row);
    }
}
