use crate::samples::{ARRAYS, HANDLED, IMAGE};
use crate::{PLAIN_METHOD, PLAIN_STATIC_FIELD};
use cap_bytes::View;
use cap_method::{MethodHeader, MethodPart, StaticPart, methods, statics};

/// A header's size, stack, arguments and locals.
fn numbers(header: Option<MethodHeader>) -> Option<(u8, u8, u8, u8)> {
    match header {
        Some(header) => Some((
            header.size,
            header.max_stack,
            header.nargs,
            header.max_locals,
        )),
        None => None,
    }
}

/// Whether a header is given where a method can stand.
fn has_headers() -> bool {
    match methods(View::of(&PLAIN_METHOD[3..])) {
        Ok(part) => {
            part.handler_count() == 0
                && numbers(part.header(1)) == Some((2, 2, 1, 0))
                && numbers(part.header(18)) == None
                && numbers(part.header(19)) == None
                && numbers(part.header(65535)) == None
        }
        Err(_) => false,
    }
}

/// A handler's stop bit, start, length, entry and index.
fn handler_items(part: &MethodPart<'_>, n: u8) -> Option<(bool, u16, u16, u16, u16)> {
    match part.handler(n) {
        Some(handler) => Some((
            handler.stop,
            handler.start,
            handler.length,
            handler.entry,
            handler.index,
        )),
        None => None,
    }
}

/// Whether both handlers, an extended header and a compact one give their items.
fn has_handlers(part: &MethodPart<'_>) -> bool {
    part.handlers().count() == 2
        && handler_items(part, 0) == Some((true, 17, 4, 21, 1))
        && handler_items(part, 1) == Some((false, 17, 32767, 256, 0))
        && handler_items(part, 2) == None
        && numbers(part.header(17)) == Some((4, 7, 5, 250))
        && numbers(part.header(20)) == None
        && numbers(part.header(21)) == Some((2, 15, 3, 1))
}

/// Whether the extended header is that of an abstract method, and the compact one has no flag.
fn has_flags(part: &MethodPart<'_>) -> bool {
    part.header(17).is_some_and(|long| long.flags.is_extended() && long.flags.is_abstract())
        && part.header(21).is_some_and(|short| short.flags.0 == 0)
}

fn are_handled() -> bool {
    match methods(View::of(&HANDLED[3..])) {
        Ok(part) => has_handlers(&part) && has_flags(&part),
        Err(_) => false,
    }
}

#[test]
fn handlers_and_headers_give_their_items(rt: HostRuntime) {
    assert!(rt; has_headers() && are_handled());
}

/// Whether the n-th initial array has this type and these values.
fn has_array(part: &StaticPart<'_>, n: u16, kind: u8, values: &[u8]) -> bool {
    match part.array(n) {
        Some(array) => array.kind == kind && array.values == values,
        None => false,
    }
}

/// Whether an image with one array has its counts and its values.
fn has_values(part: &StaticPart<'_>) -> bool {
    (
        part.image_size(),
        part.reference_count(),
        part.array_init_count(),
    ) == (8, 2, 1)
        && (part.default_value_count(), part.non_default_value_count()) == (2, 2)
        && part.values() == [0xCA, 0xFE].as_slice()
        && has_array(part, 0, 4, &[1, 2, 3, 4])
        && part.array(1).is_none()
        && part.arrays().count() == 1
}

/// Whether an image has an initial array of each type.
fn has_four_arrays(part: &StaticPart<'_>) -> bool {
    has_array(part, 0, 2, &[1, 0, 1])
        && has_array(part, 1, 3, &[0x80, 0, 0x7F])
        && has_array(part, 2, 4, &[0xFF, 0xFE])
        && has_array(part, 3, 5, &[0x80, 0, 0, 1])
        && part.array(4).is_none()
}

/// Whether the image of package T is one short.
fn is_one_short(part: &StaticPart<'_>) -> bool {
    (part.image_size(), part.reference_count()) == (2, 0)
        && part.arrays().count() == 0
        && part.default_value_count() == 0
        && part.values() == [0, 7].as_slice()
}

fn are_images() -> bool {
    let one = match statics(View::of(&IMAGE[3..])) {
        Ok(part) => has_values(&part),
        Err(_) => false,
    };
    let four = match statics(View::of(&ARRAYS[3..])) {
        Ok(part) => has_four_arrays(&part),
        Err(_) => false,
    };
    let plain = match statics(View::of(&PLAIN_STATIC_FIELD[3..])) {
        Ok(part) => is_one_short(&part),
        Err(_) => false,
    };
    one && four && plain
}

#[test]
fn images_give_their_counts_arrays_and_values(rt: HostRuntime) {
    assert!(rt; are_images());
}
