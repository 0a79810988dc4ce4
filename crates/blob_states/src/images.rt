// What a crash left, as lines.
ghost use Rattle.std.specs.Prelude.{◌≡◌, IfOk, OnOk, OnErr, string_bytes};
ghost use Rattle.blob_header.specs.Refusals.{IsMemory};
ghost use Rattle.blob_script.specs.Replies.{hex_field};
ghost use Rattle.blob_memory.specs.Store.{raw_blob};
ghost use Rattle.blob_distinct.specs.Printed.{Appends};
ghost use Rattle.blob_states.specs.Crashed.{file_line, image_line, image_lines};
ghost use Rattle.blob_states.specs.Recorded.{names_of};

use blob_base::Error;
use blob_memory::Storage;
use std::alloc::{AllocError, Global};

/// Returns the lines of the files of these names. The only error is `Memory`.
pub(crate) fn image_lines(
    alloc: Global,
    store: &Storage,
    names: &[(String, Vec<u8>)],
) -> Result<String, Error>
    ensures ok { IfOk result (λ lines. string_bytes lines ≡ image_lines (raw_blob store.now) (names_of names.now)) }
    ensures memory { OnErr result (IsMemory result) }
{
    let mut lines = String::new(alloc);
    for name in names {
        print_file(alloc, store, &name.0, &name.1, &mut lines)?;
    }
    Ok(lines)
}

/// Prints the line of a file, if there is one.
fn print_file(
    alloc: Global,
    store: &Storage,
    partition: &str,
    name: &[u8],
    lines: &mut String,
) -> Result<(), Error>
    ensures ok { OnOk result (Appends lines.old lines.new (file_line (partition.now, name.now) (raw_blob store.now partition.now name.now))) }
    ensures memory { OnErr result (IsMemory result) }
{
    let found = store.raw_blob(partition, name)?;
    if let Some(bytes) = found {
        print_image(alloc, partition, name, &bytes, lines)?;
    }
    Ok(())
}

fn print_image(
    alloc: Global,
    partition: &str,
    name: &[u8],
    bytes: &[u8],
    lines: &mut String,
) -> Result<(), AllocError>
    ensures { OnOk result (Appends lines.old lines.new (image_line partition.now name.now bytes.now)) }
{
    lines.push_str("image ")?;
    lines.push_str(partition)?;
    lines.push_str(" ")?;
    print_hex(alloc, name, lines)?;
    lines.push_str(" ")?;
    print_hex(alloc, bytes, lines)?;
    lines.push_str("\n")
}

#[tactic(auto, using(crate::proofs::HexFields::none, crate::proofs::HexFields::some))]
fn print_hex(alloc: Global, bytes: &[u8], lines: &mut String) -> Result<(), AllocError>
    ensures { OnOk result (Appends lines.old lines.new (hex_field bytes.now)) }
{
    if bytes.is_empty() {
        return lines.push_str("-");
    }
    let digits = hex::encode(alloc, bytes)?;
    lines.push_str(digits.as_str())
}
