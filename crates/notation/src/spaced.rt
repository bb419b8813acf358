// Writes words with one space between two.
ghost use Rattle.std.specs.Prelude.{◌≡◌, ℕ, List, ◌^◌, ◌<◌, ◌++◌, Some, string_bytes, OnOk};
ghost use Rattle.notation.specs.Spaced.{spaced_by};

use std::alloc::AllocError;
use std::fmt::Display;

// The words, each as what it is shown by, with one space between two.
pub(crate) fn push_spaced<T: Display + Drop, F: Fn(u32) -> T>(
    text: &mut String,
    words: &[u32],
    shown: F,
) -> Result<(), AllocError>
    requires { F.IsAlwaysCallable shown }
    ensures { (w : ℕ → List ℕ) → ((x : ℕ) (y : T) → x < 2 ^ 32 → F.post shown x y → T.output y ≡ Some (w x)) → OnOk result (string_bytes text.new ≡ string_bytes text.old ++ spaced_by w words.now) }
{
    let Some((first, others)) = words.split_first() else {
        return Ok(());
    };
    write!(text, "{}", shown(*first))?;
    for word in others {
        write!(text, " {}", shown(*word))?;
    }
    Ok(())
}
