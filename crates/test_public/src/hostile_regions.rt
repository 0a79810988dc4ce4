//! Images of a damaged region: each prefix of it, and each change of one byte.

use crate::header_values::{region_of, told};
use blob_header::{BlobVersion, Error};
use std::alloc::Global;
use std::test::Fail;

fn is_told(alloc: Global, blob: &[u8], wanted: &str) -> Result<bool, Error> {
    Ok(told(alloc, blob)?.as_str() == wanted)
}

#[test]
fn each_front_of_a_region_is_created_again(rt: HostRuntime) -> Result<(), Fail> {
    let region = region_of(&rt, rt.alloc(), BlobVersion::new(5))?;
    for kept in 0..4096 {
        assert!(rt;
            is_told(rt.alloc(), &region[..kept], "create")?,
            "{kept} bytes"
        );
    }
    assert!(rt; is_told(rt.alloc(), &region, "valid 0 5 4096")?);
    Ok(())
}

#[test]
fn each_change_of_one_byte_is_told(rt: HostRuntime) -> Result<(), Fail> {
    let mut region = region_of(&rt, rt.alloc(), BlobVersion::new(5))?;
    for at in 0..4096 {
        let kept = region[at];
        for byte in 0..=u8::MAX {
            if byte != kept {
                region[at] = byte;
                let answer = told(rt.alloc(), &region)?;
                let expected = after_change(rt.alloc(), at, byte)?;
                assert!(rt; answer == expected, "byte {at} made {byte}: {answer}");
            }
        }
        region[at] = kept;
    }
    Ok(())
}

fn wrong_magic(alloc: Global, at: usize, byte: u8) -> Result<String, Error> {
    let mut magic = *b"CWIK";
    if let Some(changed) = magic.get_mut(at) {
        *changed = byte;
    }
    let [a, b, c, d] = magic;
    Ok(format!(in alloc; "invalid magic: found [{a}, {b}, {c}, {d}]")?)
}

fn wrong_layout(alloc: Global, found: u16) -> Result<String, Error> {
    Ok(format!(in alloc; "unsupported layout version: expected 1, found {found}")?)
}

// Returns the expected resolution of a region of version 5 with another byte at this position.
fn after_change(alloc: Global, at: usize, byte: u8) -> Result<String, Error> {
    let text = match (at, byte) {
        (3, 0x43) => "unsupported layout version: expected 0, found 1",
        (0..=3, _) => return wrong_magic(alloc, at, byte),
        (4, _) => return wrong_layout(alloc, u16::from(byte) * 256 + 1),
        (5, _) => return wrong_layout(alloc, u16::from(byte)),
        (11, 0) => "create",
        (6..=11, _) => "invalid header checksum",
        _ => "invalid header padding",
    };
    Ok(String::from_str(alloc, text)?)
}
