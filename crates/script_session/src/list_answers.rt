//! The answers to `list`.

ghost use Rattle.std.specs.Prelude.{◌≡◌, ◌++◌, ◌∷◌, [], length, map, IfOk, OnOk};
ghost use Rattle.dialogues.specs.RegistryCommands.{row_said};

use crate::answers::say;
use alg_registry::ListRow;
use kc_base::Bytes;
use recorded_calls::Stop;
use reply_text::Answer;
use std::alloc::{AllocError, Global};

fn shown(alloc: Global, line: u32, row: &ListRow) -> Result<Answer, AllocError>
    ensures { IfOk result (λ answer. answer ≡ row_said line row.now) }
{
    Ok(Answer::Alg {
        line,
        name: Bytes::copy_of(alloc, row.name.as_slice())?,
        driver: Bytes::copy_of(alloc, row.driver.as_slice())?,
        priority: row.priority,
        refs: row.refs,
    })
}

fn say_rows(
    alloc: Global,
    line: u32,
    rows: &[ListRow],
    answers: &mut Vec<Answer>,
) -> Result<(), AllocError>
    ensures { OnOk result (answers.new.items ≡ answers.old.items ++ map (row_said line) rows.now) }
{
    for row in rows {
        answers.push(shown(alloc, line, row)?)?;
    }
    Ok(())
}

/// Adds an answer for each row, and then their count.
pub fn list_rows(
    alloc: Global,
    line: u32,
    rows: &[ListRow],
    answers: &mut Vec<Answer>,
) -> Result<(), Stop>
    ensures { OnOk result (answers.new.items
        ≡ answers.old.items ++ (map (row_said line) rows.now ++ Answer.Listed line (length rows.now) ∷ [])) }
{
    say_rows(alloc, line, rows, answers)?;
    let count = rows.len() as u64;
    say(answers, Answer::Listed { line, count })
}
