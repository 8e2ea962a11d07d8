//! Laws of what is written.

ghost use Rattle.script_run.specs.Answered.{NothingIsBrokenOff};
ghost use Rattle.script_run.specs.ByLines.{NothingIsByLines};
ghost use Rattle.script_run.specs.Fronts.{NothingIsFront};

use crate::lines::laws;

/// Nothing is a front of the text of any script, over any histories.
pub fn nothing_is_front()
    ensures { NothingIsFront }
{}

/// Nothing is the text of no line of any script, over any histories.
pub fn nothing_is_by_lines()
    ensures { NothingIsByLines }
{}

/// Where nothing happened, nothing is what a script writes that memory stops.
pub fn nothing_is_broken_off()
    ensures { NothingIsBrokenOff }
{
    laws();
}
