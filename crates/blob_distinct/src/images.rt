//! A copy of what lies in a store at first.
ghost use Rattle.std.specs.Prelude.{◌≡◌, IfOk, OnErr};
ghost use Rattle.blob_header.specs.Refusals.{IsMemory};
ghost use Rattle.blob_script.specs.Preambles.{images_of};
ghost use Rattle.blob_distinct.specs.Images.{image_of};

use blob_base::Error;
use std::alloc::Global;

/// Returns a copy of images by partition, name and bytes. The only error is `Memory`.
pub fn copies(
    alloc: Global,
    images: &[(String, Vec<u8>, Vec<u8>)],
) -> Result<Vec<(String, Vec<u8>, Vec<u8>)>, Error>
    ensures ok { IfOk result (λ all. images_of all.items ≡ images_of images.now) }
    ensures memory { OnErr result (IsMemory result) }
{
    let mut all = Vec::with_capacity(alloc, images.len())?;
    for image in images {
        let copy = copied(image)?;
        all.push(copy)?;
    }
    Ok(all)
}

fn copied(image: &(String, Vec<u8>, Vec<u8>)) -> Result<(String, Vec<u8>, Vec<u8>), Error>
    ensures ok { IfOk result (λ copy. image_of copy ≡ image_of image.now) }
    ensures memory { OnErr result (IsMemory result) }
{
    let (partition, name, bytes) = image;
    Ok((partition.clone()?, name.clone()?, bytes.clone()?))
}
