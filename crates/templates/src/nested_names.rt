//! Where `pcrypt` and `cryptd` may stand in a name.
ghost use Rattle.std.specs.Prelude.{◌≡◌, Ok, Err, if◌then◌else◌};
ghost use Rattle.templates.specs.Nesting.{has_wrapper, is_wrapper_word, inner_args, is_nested_well, any_wrapper};
ghost use Rattle.alg_names.specs.Name.{word_of, args_of};
ghost use Rattle.kc_base.specs.declared.error_numbers.Errno.TheVariants.{EINVAL};

use alg_names::Name;
use kc_base::Errno;

fn is_wrapper(word: &[u8]) -> bool
    ensures { result ≡ is_wrapper_word word.now }
{
    word == b"pcrypt".as_slice() || word == b"cryptd".as_slice()
}

/// Whether `pcrypt` or `cryptd` stands in the name.
fn is_wrapped(name: &Name) -> bool
    ensures { result ≡ has_wrapper name.now }
{
    if is_wrapper(name.word()) {
        return true;
    }
    for argument in name.args() {
        if is_wrapped(argument) {
            return true;
        }
    }
    false
}

/// The arguments in which neither `pcrypt` nor `cryptd` may stand.
fn inner_args(name: &Name) -> &[Name]
    ensures { result.now ≡ inner_args (word_of name.now) (args_of name.now) }
{
    match name.args() {
        [only] if name.word() == b"cryptd".as_slice() && only.word() == b"pcrypt".as_slice() => {
            only.args()
        }
        args => args,
    }
}

/// Refuses a name with `pcrypt` or `cryptd` below its root, but for a `pcrypt` alone in a root `cryptd`, by EINVAL. No
/// memory is taken.
pub fn nesting(name: &Name) -> Result<(), Errno>
    ensures { result ≡ (if is_nested_well name.now then Ok tt else Err EINVAL) }
{
    for argument in inner_args(name) {
        if is_wrapped(argument) {
            return Err(Errno::EINVAL);
        }
    }
    Ok(())
}
