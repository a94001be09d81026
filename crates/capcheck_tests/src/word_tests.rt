use cap_bytes::Part;
use cap_files::{Words, file_name};
use std::alloc::{AllocError, Global};

static WORDS: [&str; 3] = ["probe", "", "Gr\u{fc}n"];

/// Whether words are held in their order, each as it was pushed.
fn are_held(alloc: Global) -> Result<bool, AllocError> {
    let mut words = Words::new(alloc);
    for word in WORDS.iter() {
        words.push(word)?;
    }
    let mut held = words.iter();
    Ok(
        words.len() == 3
            && held.next() == Some(WORDS[0])
            && held.next() == Some(WORDS[1])
            && held.next() == Some(WORDS[2])
            && held.next().is_none(),
    )
}

#[test]
fn words_are_texts(rt: HostRuntime) -> Result<(), AllocError> {
    assert!(rt; are_held(rt.alloc())?);
    Ok(())
}

/// Parts with the names of their files.
static NAMES: [(u8, &str); 7] = [
    (0, "Roles"),
    (7, "Method"),
    (12, "Debug"),
    (13, "Load"),
    (14, "Listing"),
    (15, "Custom15"),
    (255, "Custom255"),
];

/// Whether the file of a part has this name.
fn is_named(alloc: Global, part: u8, name: &str) -> Result<bool, AllocError> {
    let shown = format!(in alloc; "{}", file_name(Part(part)))?;
    Ok(shown.as_str() == name)
}

/// The first name that a file is not given, or the empty text.
fn first_misnamed(alloc: Global) -> Result<&'static str, AllocError> {
    for (part, name) in NAMES.iter() {
        if !is_named(alloc, *part, name)? {
            return Ok(name);
        }
    }
    Ok("")
}

#[test]
fn files_are_named_by_their_parts(rt: HostRuntime) -> Result<(), AllocError> {
    assert_eq!(rt; first_misnamed(rt.alloc())?, "");
    Ok(())
}
