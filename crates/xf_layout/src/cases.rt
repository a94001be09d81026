ghost use Rattle.std.specs.Prelude.{◌≡◌, ◌≤◌, ◌+◌, Ok, OnOk, IsTrue, length, slice_index, pos, ◌-ℤ◌};
ghost use Rattle.jc_decode.specs.Decoding.{decoded};
ghost use Rattle.jc_decode.specs.Cases.{cases, is_switch, with_default};
ghost use Rattle.xf_layout.specs.Laid.{AreInReach, AddsSwitch, led};

use crate::places::LabelPlaces;
use cap_bytes::View;
use jc_decode::{Insn, Labels, bytes_read_back, encode, set_case};
use std::alloc::{AllocError, Global};

/// Appends a switch of the source, with the offsets to its labels from where it is laid.
pub fn lay_switch(
    alloc: Global,
    source: View,
    insn: Insn,
    at: u16,
    labels: &Labels,
    places: &LabelPlaces,
    code: &mut Vec<u8>,
) -> Result<(), AllocError>
    requires short { length source.bytes.now ≤ 32767 }
    requires here { length code.old.items ≤ 32767 }
    requires few { insn.len ≤ 32767 }
    requires switch { IsTrue (is_switch insn.op) }
    requires there { with_default insn.x (decoded source.bytes.now at) ≡ Ok insn }
    requires count { length labels.now ≡ length (cases source.bytes.now at insn) + 1 }
    requires reached { AreInReach places.now labels.now }
    ensures { OnOk result (AddsSwitch source.entry.bytes.now (slice_index places.now) insn at labels.now
        code.old.items code.new.items) }
{
    let here = code.len() as u32;
    let offset = distance(here, places.at(*labels.at(0)));
    let switch = insn.with_default(source, at, offset);
    let mut bytes = Vec::new(alloc);
    encode(switch, source, at, &mut bytes)?;
    lead_cases(
        bytes.as_mut_slice(),
        switch,
        &labels.as_slice()[1..],
        places,
        here,
    );
    bytes_read_back(&bytes);
    code.extend_from_slice(&bytes)
}

/// Leads the cases of a switch to labels, seen from the place where its bytes are laid.
fn lead_cases(bytes: &mut [u8], switch: Insn, labels: &[u16], places: &LabelPlaces, here: u32)
    requires short { length bytes.old ≤ 32767 }
    requires decoded { decoded bytes.old 0 ≡ Ok switch }
    requires count { length labels.now ≡ length (cases bytes.old 0 switch) }
    requires few { length labels.now ≤ 65535 }
    requires here { here ≤ 32767 }
    requires reached { AreInReach places.now labels.now }
    ensures decoded { decoded bytes.new 0 ≡ Ok switch }
    ensures cases { cases bytes.new 0 switch
        ≡ led (slice_index places.now) here labels.now (cases bytes.old 0 switch) }
{
    'cases: for (n, label) in labels.iter().enumerate() {
        let offset = distance(here, places.at(*label));
        set_case(bytes, 0, switch, n as u32, offset);
    }
}

/// The distance from a place of a method's code to another.
pub fn distance(from: u32, to: u32) -> i16
    requires from { from ≤ 32767 }
    requires to { to ≤ 32767 }
    ensures { result ≡ pos to -ℤ pos from }
{
    (i64::from(to) - i64::from(from)) as i16
}
