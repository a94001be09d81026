use crate::samples::{CUSTOM, ONE_APPLET, ONE_IMPORT};
use crate::{OLDER_DIRECTORY, OLDER_HEADER, PLAIN_HEADER};
use cap_bytes::{Format, View};
use cap_frame::{Directory, applets, directory, header, imports};

/// Whether a Header with an unknown flag keeps the known ones, and gives its items.
fn is_header() -> bool {
    let mut flagged = PLAIN_HEADER;
    flagged[9] = 0xFC;
    match header(View::of(&flagged[3..])) {
        Ok(header) => {
            header.flags().0 == 4
                && header.package().major == 1
                && header.package().aid.len() == 5
                && header.name().is_empty()
                && matches!(header.format(), Format::V22)
        }
        Err(_) => false,
    }
}

/// Whether the Header of package T in format 2.1 tells its format and has no name.
fn is_older() -> bool {
    match header(View::of(&OLDER_HEADER[3..])) {
        Ok(header) => matches!(header.format(), Format::V21) && header.name().is_empty(),
        Err(_) => false,
    }
}

/// Whether the Directory in format 2.1 gives Debug no size, and what comes after the sizes.
fn has_eleven_sizes() -> bool {
    match directory(View::of(&OLDER_DIRECTORY[3..]), Format::V21) {
        Ok(directory) => {
            directory.size(11) == Some(111)
                && directory.size(12) == Some(0)
                && directory.image_size() == 2
        }
        Err(_) => false,
    }
}

/// Tags, and the sizes that a Directory with two custom components gives them.
static SIZES: [(u8, Option<u16>); 7] = [
    (0, None),
    (1, Some(16)),
    (3, Some(0)),
    (12, Some(0)),
    (13, None),
    (128, Some(7)),
    (255, Some(256)),
];

/// Whether a Directory gives these sizes and the custom components.
fn has_sizes(directory: &Directory<'_>) -> bool {
    directory.info().bytes.len() == 51
        && SIZES
            .iter()
            .position(|(tag, size)| directory.size(*tag) != *size)
            .is_none()
        && directory.image_size() == 2
        && directory.custom_count() == 2
        && directory.custom(1).is_some_and(|custom| custom.tag == 255)
        && directory.custom(2).is_none()
}

fn is_directory() -> bool {
    match directory(View::of(&CUSTOM[3..]), Format::V22) {
        Ok(directory) => has_sizes(&directory),
        Err(_) => false,
    }
}

#[test]
fn a_header_and_a_directory_give_their_items_in_both_formats(rt: HostRuntime) {
    assert!(rt; is_header() && is_older() && is_directory() && has_eleven_sizes());
}

fn are_applets() -> bool {
    match applets(View::of(&ONE_APPLET[3..])) {
        Ok(applets) => {
            applets.at(0).is_some_and(|applet| applet.install == 16) && applets.at(1).is_none()
        }
        Err(_) => false,
    }
}

fn are_imports() -> bool {
    match imports(View::of(&ONE_IMPORT[3..])) {
        Ok(imports) => {
            imports.at(0).is_some_and(|package| package.minor == 3) && imports.at(1).is_none()
        }
        Err(_) => false,
    }
}

#[test]
fn applets_and_imports_are_given_by_position(rt: HostRuntime) {
    assert!(rt; are_applets() && are_imports());
}
