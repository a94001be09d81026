ghost use Rattle.std.specs.Prelude.{◌≡◌, ◌<◌, ◌↔◌, IfSome, IsTrue, option_map, Some};
ghost use Rattle.jc_classes.specs.Signatures.{same_types, same_result, same_sig, same_signature, entry_method, entry_signature};

use jc_base::{MethodRec, Methods, Sig, Ty, same_type};

#[tactic(auto, using(crate::proofs::SameTypes::same_lists))]
fn same_types(a: &[Ty], b: &[Ty]) -> bool
    ensures { result ≡ same_types a.now b.now }
{
    if a.len() != b.len() {
        return false;
    }
    let mut i = 0;
    'types: while i < a.len() {
        if !same_type(a[i], b[i]) {
            return false;
        }
        i += 1;
    }
    true
}

fn same_result(a: Option<Ty>, b: Option<Ty>) -> bool
    ensures { result ≡ same_result a b }
{
    match a {
        Some(a) => match b {
            Some(b) => same_type(a, b),
            None => false,
        },
        None => b.is_none(),
    }
}

/// Whether two signatures have the same types.
#[tactic(auto, unfolding(crate::specs::Signatures::same_sig))]
pub(crate) fn same_sig(a: &Sig, b: &Sig) -> bool
    ensures { result ≡ same_sig a.now b.now }
{
    same_types(a.args.as_slice(), b.args.as_slice()) && same_result(a.result, b.result)
}

/// The method of an entry of a dispatch list.
#[inline(always)]
pub(crate) fn method_in<'a>(methods: &'a Methods, entry: Option<u16>) -> Option<&'a MethodRec>
    ensures is { option_map (λ m. m.now) result ≡ entry_method methods.now entry }
    ensures there { IfSome result (λ m. Some m.now ≡ entry_method methods.now entry) }
{
    let n = entry? as usize;
    if n < methods.len() {
        Some(methods.at(n))
    } else {
        None
    }
}

/// Whether two entries have methods of one signature, or neither has a method.
#[tactic(auto, using(crate::proofs::SameTypes::signatures))]
#[inline(always)]
pub(crate) fn same_signature(methods: &Methods, a: Option<u16>, b: Option<u16>) -> bool
    ensures is { result ≡ same_signature (entry_signature methods.now a) (entry_signature methods.now b) }
    ensures exact { IsTrue result ↔ entry_signature methods.now a ≡ entry_signature methods.now b }
{
    // Most entries are inherited as they are.
    a == b || are_alike(method_in(methods, a), method_in(methods, b))
}

fn are_alike(a: Option<&MethodRec>, b: Option<&MethodRec>) -> bool
    ensures { result
        ≡ same_signature
        (option_map (λ m. m.sig) (option_map (λ m. m.now) a.entry))
        (option_map (λ m. m.sig) (option_map (λ m. m.now) b.entry)) }
{
    match a {
        Some(m) => match b {
            Some(n) => same_sig(&m.sig, &n.sig),
            None => false,
        },
        None => b.is_none(),
    }
}
