// Rows of bytes, one column for each offset.
use std::alloc::AllocError;

/// How many bytes a row shows.
pub(crate) const STRIPE: u64 = 16;

/// What a row shows at an offset.
#[derive(Clone, Copy)]
pub(crate) enum Cell {
    Blank,
    Byte(u8),
    /// A byte that wasn't kept or is covered: this sign, twice.
    Mark(char),
}

/// Adds a row with its label, without spaces after its last byte.
pub(crate) fn push_row(
    label: &str,
    width: usize,
    cells: &[Cell],
    text: &mut String,
) -> Result<(), AllocError> {
    write!(text, "    {label}")?;
    let mut blanks = width.saturating_sub(label.len()).saturating_add(2);
    for cell in cells {
        if let Cell::Blank = cell {
            blanks = blanks.saturating_add(3);
            continue;
        }
        for i in 0..blanks {
            let _ = i;
            text.push(' ')?;
        }
        blanks = 1;
        match cell {
            Cell::Byte(byte) => write!(text, "{byte:02x}")?,
            Cell::Mark(sign) => write!(text, "{sign}{sign}")?,
            Cell::Blank => {}
        }
    }
    text.push('\n')
}
