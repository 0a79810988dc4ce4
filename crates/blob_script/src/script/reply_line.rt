// Replies as lines.
ghost use Rattle.std.specs.Prelude.{◌≡◌, ◌++◌, OnOk, OnErr, string_bytes};
ghost use Rattle.std.specs.List.{flat_map};
ghost use Rattle.std.specs.Fmt.{decimal};
ghost use Rattle.hex.specs.Hex.{encode_lower};
ghost use Rattle.blob_draws.specs.Rows.{row_in, rows_in};
ghost use Rattle.blob_script.specs.Replies.{reply_line, hex_field, name_fields, row_field};

use crate::Reply;
use crate::script::encode_hex;
use blob_base::RefusalLine;
use std::alloc::AllocError;
use std::mem;

/// Appends a reply's line to `line`, without the line feed. After an error, a part of it may have been appended.
pub fn print_reply(reply: &Reply, line: &mut String) -> Result<(), AllocError>
    ensures { OnOk result (string_bytes line.new ≡ string_bytes line.old ++ reply_line reply.now) }
{
    match reply {
        Reply::Done => line.push_str("ok"),
        Reply::Opened {
            handle,
            size,
            version,
        } => {
            let version = version.get();
            write!(line, "opened {handle} {size} {version}")
        }
        Reply::Bytes(bytes) => {
            line.push_str("bytes ")?;
            print_hex(bytes, line)
        }
        Reply::Size(size) => write!(line, "size {size}"),
        Reply::Names(names) => {
            line.push_str("names")?;
            print_names(names, line)
        }
        Reply::Started(number) => write!(line, "started {number}"),
        Reply::Crashed(selections) => {
            line.push_str("crashed")?;
            print_rows(selections.rows(), line)
        }
        Reply::Failed(e) => {
            let refusal = RefusalLine(e);
            write!(line, "{refusal}")
        }
        Reply::NoHandle => line.push_str("error NoHandle"),
        Reply::EmptyRange => line.push_str("error EmptyRange"),
    }
}

/// Appends bytes in lower-case hex. After an error nothing was appended.
fn append_digits(text: &mut Vec<u8>, bytes: &[u8]) -> Result<(), AllocError>
    ensures ok { OnOk result (text.new.items ≡ text.old.items ++ encode_lower bytes.now) }
    ensures err { OnErr result (text.new.items ≡ text.old.items) }
{
    let start = text.len();
    let end = start
        .checked_add(bytes.len())
        .and_then(|half| half.checked_add(bytes.len()));
    let Some(end) = end else {
        return Err(AllocError);
    };
    text.resize(end, 0)?;
    encode_hex(bytes, &mut text[start..]);
    Ok(())
}

/// Appends bytes in lower-case hex, or `-` if there are none.
#[tactic(auto, using(crate::proofs::HexFields::none, crate::proofs::HexFields::some))]
fn print_hex(bytes: &[u8], line: &mut String) -> Result<(), AllocError>
    ensures { OnOk result (string_bytes line.new ≡ string_bytes line.old ++ hex_field bytes.now) }
{
    if bytes.is_empty() {
        return line.push_str("-");
    }
    // The digits are written in place: a text of their own would be copied.
    let empty = String::new(*line.allocator());
    let mut text = mem::replace(line, empty).into_bytes();
    let printed = append_digits(&mut text, bytes);
    *line = unsafe { String::from_utf8_unchecked(text) };
    printed
}

fn print_names(names: &[Vec<u8>], line: &mut String) -> Result<(), AllocError>
    ensures { OnOk result (string_bytes line.new ≡ string_bytes line.old ++ name_fields names.now) }
{
    for name in names {
        line.push(' ')?;
        print_hex(name, line)?;
    }
    Ok(())
}

fn print_rows(rows: &[(u64, Vec<bool>)], line: &mut String) -> Result<(), AllocError>
    ensures { OnOk result (string_bytes line.new ≡ string_bytes line.old ++ flat_map row_field (rows_in rows.now)) }
{
    for (number, choices) in rows {
        write!(line, " {number}:")?;
        for kept in choices {
            line.push(if *kept { '1' } else { '0' })?;
        }
    }
    Ok(())
}
