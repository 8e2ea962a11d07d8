//! The spelling of a name.
ghost use Rattle.std.specs.Prelude.{◌≡◌, ◌++◌, OnOk, IfOk};
ghost use Rattle.alg_names.specs.Name.{spelling};

use crate::Name;
use kc_base::Bytes;
use std::alloc::{AllocError, Global};

fn print_into(name: &Name, out: &mut Bytes) -> Result<(), AllocError>
    ensures { OnOk result (out.new ≡ out.old ++ spelling name.now) }
{
    out.append(name.word())?;
    match name.args() {
        [] => Ok(()),
        [first, others @ ..] => {
            out.push(b'(')?;
            print_into(first, out)?;
            for other in others {
                out.push(b',')?;
                print_into(other, out)?;
            }
            out.push(b')')?;
            Ok(())
        }
    }
}

/// The one spelling of a name, at most 127 bytes. Only want of memory is an error.
pub fn print_name(alloc: Global, name: &Name) -> Result<Bytes, AllocError>
    ensures { IfOk result (λ bytes. bytes ≡ spelling name.now) }
{
    let mut out = Bytes::new(alloc);
    print_into(name, &mut out)?;
    Ok(out)
}
