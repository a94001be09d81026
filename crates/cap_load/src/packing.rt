ghost use Rattle.std.specs.Prelude.{◌≡◌, ◌≤◌, ◌++◌, length, IfOk, IfErr, OnOk};
ghost use Rattle.std.specs.List.{AllByRecursion, flat_map};
ghost use Rattle.cap_load.specs.LoadFile.{block, IsBlock};
ghost use Rattle.cap_load.specs.Packing.{IsFramed, IsPacked, IsTooLong};
ghost use Rattle.cap_load.specs.Joining.{in_order, file_in, ending, IsCut};

use crate::fault::BlocksEnd;
use crate::order::COMPONENTS;
use cap_bytes::{Part, are_bytes};
use cap_components::Parts;
use std::alloc::{AllocError, Global};

/// The most bytes that the file of a part can have: a tag, a size and 65,535 bytes.
const MOST_BYTES: usize = 65538;

/// Appends the file of a part, where it is there.
fn append(contents: &mut Vec<u8>, parts: &Parts<'_>, tag: u8) -> Result<(), AllocError>
    ensures { OnOk result (contents.new.items ≡ contents.old.items ++ file_in parts.now tag) }
{
    match parts.get(Part(tag)) {
        None => Ok(()),
        Some(bytes) => contents.extend_from_slice(bytes),
    }
}

/// Appends the files of the components of the standard.
fn append_all(contents: &mut Vec<u8>, parts: &Parts<'_>, tags: &[u8]) -> Result<(), AllocError>
    ensures { OnOk result (contents.new.items ≡ contents.old.items ++ flat_map (file_in parts.now) tags.now) }
{
    'tags: for tag in tags {
        append(contents, parts, *tag)?;
    }
    Ok(())
}

/// The files of the components, one after another, in order.
fn joined(alloc: Global, parts: &Parts<'_>) -> Result<Vec<u8>, AllocError>
    ensures { IfOk result (λ contents. contents.items ≡ flat_map (file_in parts.now) in_order) }
{
    let mut contents = Vec::new(alloc);
    append_all(&mut contents, parts, &COMPONENTS)?;
    'customs: for tag in 128..256u16 {
        append(&mut contents, parts, tag as u8)?;
    }
    Ok(contents)
}

/// Appends a block.
fn put_block(stream: &mut Vec<u8>, content: &[u8]) -> Result<(), AllocError>
    requires { IsBlock content.now }
    ensures { OnOk result (stream.new.items ≡ stream.old.items ++ block content.now) }
{
    stream.push(content.len() as u8)?;
    stream.extend_from_slice(content)
}

/// Appends what is left, as the last block, and the ending.
fn put_end(stream: &mut Vec<u8>, rest: &[u8]) -> Result<(), AllocError>
    requires { length rest.now ≤ 255 }
    ensures { OnOk result (stream.new.items ≡ stream.old.items ++ ending rest.now) }
{
    if !rest.is_empty() {
        put_block(stream, rest)?;
    }
    stream.push(0)?;
    Ok(())
}

/// Contents in blocks of 255 bytes and a last one of no more, with the ending.
fn cut(alloc: Global, contents: &[u8]) -> Result<Vec<u8>, AllocError>
    ensures { IfOk result (λ stream. IsCut contents.now stream.items) }
{
    let mut stream = Vec::new(alloc);
    let mut rest = contents;
    'cuts: while rest.len() > 255 {
        let (content, behind) = rest.split_at(255);
        put_block(&mut stream, content)?;
        rest = behind;
    }
    put_end(&mut stream, rest)?;
    Ok(stream)
}

/// The Load file of the components among the parts: those of the standard but Debug, and the custom ones.
pub fn blocks(alloc: Global, parts: &Parts<'_>) -> Result<Vec<u8>, BlocksEnd>
    requires { AllByRecursion IsFramed parts.now }
    ensures packed { IfOk result (λ stream. IsPacked parts.now stream.items × (length stream.items ≤ 65538)) }
    ensures long { IfErr result (λ end. IsTooLong parts.now end) }
{
    let contents = joined(alloc, parts)?;
    let bytes = contents.as_slice();
    are_bytes(bytes);
    let stream = cut(alloc, bytes)?;
    if stream.len() > MOST_BYTES {
        return Err(BlocksEnd::LoadLong(stream.len() as u32));
    }
    Ok(stream)
}
