ghost use Rattle.std.specs.Prelude.{◌≡◌, ◌≤◌, length, find, Ok};
ghost use Rattle.vm_store.specs.State.{IsRunning, top};
ghost use Rattle.vm_step.specs.Numbers.{dropped, number_on, number_width};
ghost use Rattle.vm_step.specs.Branching.{is_same, is_taken, branch_width, has_key, case_offset};
ghost use Rattle.jc_decode.specs.Decoding.{decoded};
ghost use Rattle.jc_decode.specs.Cases.{cases};

use crate::arithmetic::{handle_on, int_on, short_on};
use cap_bytes::View;
use jc_decode::{Insn, case_of_key};
use jc_ops::{Branch, Sameness, Width};
use vm_arithmetic::succeeds;
use vm_store::Store;

/// Pops what a branch asks, and tells whether it is taken.
pub fn pop_branch<S: Store>(store: &mut S, branch: Branch) -> bool
    requires well { S.well store.old }
    requires running { IsRunning (S.state store.old) }
    requires cells { branch_width branch ≤ length (top (S.state store.old)).stack }
    ensures taken { result ≡ is_taken S.Cell.cells branch (top (S.state store.old)).stack }
    ensures state { S.state store.new ≡ dropped (S.state store.old) (branch_width branch) }
    ensures well { S.well store.new }
    ensures fixed { S.fixed store.new ≡ S.fixed store.old }
{
    let taken = is_taken(store, branch);
    store.discard(branch_width(branch));
    taken
}

fn is_taken<S: Store>(store: &S, branch: Branch) -> bool
    requires well { S.well store.now }
    requires running { IsRunning (S.state store.now) }
    requires cells { branch_width branch ≤ length (top (S.state store.now)).stack }
    ensures { result ≡ is_taken S.Cell.cells branch (top (S.state store.now)).stack }
{
    match branch {
        Branch::Always => true,
        Branch::Zero(order) => succeeds(order, short_on(store, 0), 0),
        Branch::Null(wanted) => is_same(wanted, handle_on(store, 0), 0),
        Branch::References(wanted) => is_same(wanted, handle_on(store, 1), handle_on(store, 0)),
        Branch::Shorts(order) => succeeds(order, short_on(store, 1), short_on(store, 0)),
    }
}

/// How many cells a branch pops.
fn branch_width(branch: Branch) -> usize
    ensures { result ≡ branch_width branch }
{
    match branch {
        Branch::Always => 0,
        Branch::Zero(_) | Branch::Null(_) => 1,
        Branch::References(_) | Branch::Shorts(_) => 2,
    }
}

fn is_same(wanted: Sameness, a: u16, b: u16) -> bool
    ensures { result ≡ is_same wanted a b }
{
    match wanted {
        Sameness::Equal => a == b,
        Sameness::Different => a != b,
    }
}

/// The distance that a switch at a place of the code tells for a key: that of the first case with the key, and
/// else the default's.
pub fn switch_offset(code: View<'_>, place: u16, insn: Insn, key: i32) -> i32
    requires short { length code.bytes.now ≤ 65535 }
    requires decoded { decoded code.bytes.now place ≡ Ok insn }
    ensures { result ≡ case_offset insn.x (find (has_key key) (cases code.entry.bytes.now place insn)) }
{
    match case_of_key(code, place, insn, key) {
        Some(case) => i32::from(case.offset),
        None => insn.x,
    }
}

/// Pops the number that a switch asks.
pub fn pop_key<S: Store>(store: &mut S, width: Width) -> i32
    requires well { S.well store.old }
    requires running { IsRunning (S.state store.old) }
    requires cells { number_width width ≤ length (top (S.state store.old)).stack }
    ensures key { result ≡ number_on S.Cell.cells width (top (S.state store.old)).stack }
    ensures state { S.state store.new ≡ dropped (S.state store.old) (number_width width) }
    ensures well { S.well store.new }
    ensures fixed { S.fixed store.new ≡ S.fixed store.old }
{
    match width {
        Width::Short => {
            let key = i32::from(short_on(store, 0));
            store.discard(1);
            key
        }
        Width::Int => {
            let key = int_on(store, 0);
            store.discard(2);
            key
        }
    }
}
