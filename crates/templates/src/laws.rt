//! Laws of the table, and of what is built by it.
ghost use Rattle.std.specs.Prelude.{◌≡◌, List, All};
ghost use Rattle.kc_base.specs.declared.error_numbers.Errno.TheVariants.{ENOENT};
ghost use Rattle.alg_registry.specs.declared.entry.EndAnswer.{EndAnswer};
ghost use Rattle.alg_registry.specs.declared.entry.RegEntry.{RegEntry};
ghost use Rattle.alg_registry.specs.Legal.{LegalReg};
ghost use Rattle.alg_registry.specs.Made.{Made};
ghost use Rattle.alg_registry.specs.Rows.{registered};
ghost use Rattle.alg_names.specs.Name.{Tree};
ghost use Rattle.templates.specs.Requirements.{IsTableAt, AsksForLess};
ghost use Rattle.templates.specs.Names.{IsKnown};
ghost use Rattle.templates.specs.Table.{table};
ghost use Rattle.templates.specs.Planned.{IsPlanned};
ghost use Rattle.templates.specs.Trial.{cbc_with, cbc_spec, ctr_spec};

use alg_names::laws::{computed_tree, named_arguments};

/// Of the ways in which a builder may end `cbc(aes)` over the listed driver only one is right.
pub fn faithful_ends()
    ensures built { Made table (cbc_with (EndAnswer.Built 3 cbc_spec)) }
    ensures other { ¬ Made table (cbc_with (EndAnswer.Built 3 ctr_spec)) }
    ensures failed { ¬ Made table (cbc_with (EndAnswer.Failed ENOENT)) }
{}

/// What the table says of a name is what the definitions say of its tree, and what a name asks for is less than the
/// name.
pub fn names_in_the_table()
    ensures table { (name : Tree) → IsKnown name → IsTableAt name }
    ensures less { (name : Tree) → AsksForLess name }
{}

/// Whatever was listed or built: its driver is a name within the limits, whose root says how it is wrapped, and the
/// plan of that name is one of its kind.
pub fn planned_drivers()
    ensures { (h : List RegEntry) → LegalReg h → Made table h → All IsPlanned (registered h) }
{
    computed_tree();
    named_arguments();
}
