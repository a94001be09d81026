use crate::filling::Kept;
use crate::rows::{Answer, Story, stories_go_so};
use std::alloc::AllocError;

const ACCEPTED: Answer = ("verify U", "accepted 200 methods\n", 0);

const NOTHING: Answer = ("verify U", "malformed package 0 MissingPart 1\n", 7);

const FROM_0: [Answer; 2] = [
    (
        "gen 0 U",
        "generated 200 methods 4001 bytes\ntransformed 200 methods 4951 bytes\naccepted 200 methods\nsum 43950\n",
        0,
    ),
    ACCEPTED,
];

const FROM_1: [Answer; 2] = [
    (
        "gen 1 U",
        "generated 200 methods 4001 bytes\ntransformed 200 methods 4951 bytes\naccepted 200 methods\nsum 42875\n",
        0,
    ),
    ACCEPTED,
];

const FROM_100: [Answer; 2] = [
    (
        "gen 100 U",
        "generated 200 methods 4001 bytes\ntransformed 200 methods 4951 bytes\naccepted 200 methods\nsum 43950\n",
        0,
    ),
    ACCEPTED,
];

const UNSTORED: [Answer; 2] = [("gen 1 U", "store fault\n", 4), NOTHING];

const USAGES: [Answer; 4] = [
    ("gen 1", "usage\n", 2),
    ("gen 1 U U", "usage\n", 2),
    ("gen 4294967296 U", "usage\n", 2),
    NOTHING,
];

/// The tenth of the stores of a generated package is that of its Header.
static GENERATED: [Story; 5] = [
    (Kept::Plain, 0, 0, &FROM_0),
    (Kept::Plain, 0, 0, &FROM_1),
    (Kept::Plain, 0, 0, &FROM_100),
    (Kept::Plain, 10, 0, &UNSTORED),
    (Kept::Plain, 0, 0, &USAGES),
];

#[test]
fn packages_are_generated(rt: HostRuntime) -> Result<(), AllocError> {
    stories_go_so(&rt, rt.alloc(), &GENERATED)
}
