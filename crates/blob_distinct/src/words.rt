//! What is printed of the words of a run, and of a number of things.
ghost use Rattle.std.specs.Prelude.{◌≡◌, ◌==◌, OnOk, if◌then◌else◌};
ghost use Rattle.std.specs.List.{flat_map};
ghost use Rattle.blob_distinct.specs.Printed.{Appends, word_text};

use std::alloc::AllocError;

/// Prints words, each 0 or the greatest word, with a space before each.
pub fn print_words(words: &[u64], printed: &mut String) -> Result<(), AllocError>
    ensures { OnOk result (Appends printed.old printed.new (flat_map word_text words.now)) }
{
    for word in words {
        printed.push_str(if *word == 0 { " 0" } else { " max" })?;
    }
    Ok(())
}

/// Returns the noun for a number of things.
pub fn noun<'a>(count: u64, one: &'a str, many: &'a str) -> &'a str
    ensures { result.now ≡ if count == 1 then one.now else many.now }
{
    if count == 1 { one } else { many }
}
