// What a file system is begun with: words, a seed and settings.
ghost use Rattle.std.specs.Prelude.{◌≡◌, IfOk, None};
ghost use Rattle.blob_fs.specs.Files.{names_of};
ghost use Rattle.blob_directory.specs.Names.{Same};
ghost use Rattle.blob_file_sessions.specs.Held.{fs_of};

use crate::kept::KeptFiles;
use crate::reader::FileReader;
use blob_lab::first_line;
use blob_lab::script::RefusedLine;
use blob_sessions::RefusedPreamble;
use std::alloc::Global;

/// Returns an empty file system with a text's words, seed and settings.
pub fn start(alloc: Global, text: &[u8]) -> Result<KeptFiles, RefusedPreamble>
    ensures { IfOk result (λ kept. Same (names_of (fs_of kept)) (λ _. None)) }
{
    let mut reader = read(alloc, text)?;
    match reader.begin(alloc) {
        Ok(kept) => Ok(kept),
        Err(_) => Err(RefusedPreamble::NoMemory),
    }
}

fn read(alloc: Global, text: &[u8]) -> Result<FileReader, RefusedPreamble> {
    let mut reader = FileReader::new(alloc);
    let mut rest = text;
    let mut number = 0u64;
    'lines: while let Some((line, others)) = first_line(rest) {
        number += 1;
        match reader.read(alloc, line) {
            Ok(_) => {}
            Err(RefusedLine::BadCall) => return Err(RefusedPreamble::BadLine(number)),
            Err(RefusedLine::NoMemory) => return Err(RefusedPreamble::NoMemory),
        }
        rest = others;
    }
    Ok(reader)
}
