ghost use Rattle.std.specs.Prelude.{◌≡◌, ◌≤◌, ◌<◌, ◌+◌, IfOk, Some, None, MatchOption};
ghost use Rattle.cap_laying.specs.Member.{body_size, methods_end_from};
ghost use Rattle.cap_laying.specs.NewPlaces.{AreSmallBodies, IsSmallBody, new_method, news_from};

use crate::entries::header_size;
use crate::member::{Body, WrittenMember};
use cap_renewal::{NewMethod, NewMethods};
use std::alloc::{AllocError, Global};

/// The most bytes that the info of a component may have.
const LONGEST_INFO: usize = 65535;

/// How many bytes a method has.
pub(crate) fn body_size(body: Body<'_>) -> usize
    requires { IsSmallBody body }
    ensures size { result ≡ body_size body.entry }
    ensures small { result ≤ 65535 }
{
    match body {
        Body::Code(laid) => header_size(laid) as usize + laid.code.len(),
        Body::Header(header) => header.len(),
    }
}

/// The offset after the methods, the first of which begins at a place, where it is at most 65,535.
pub(crate) fn end_of(start: usize, table: &[Option<WrittenMember<'_>>]) -> Option<usize>
    requires start { start ≤ 65535 }
    requires small { AreSmallBodies table.now }
    ensures { MatchOption result
        (65535 < methods_end_from start table.now)
        (λ end. (end ≡ methods_end_from start table.now) × (end ≤ 65535)) }
{
    let mut at = start;
    'methods: for slot in table {
        if let Some(member) = slot {
            at += body_size(member.body);
            if at > LONGEST_INFO {
                return None;
            }
        }
    }
    Some(at)
}

/// Where the methods stand that are written one after the other from a place on, by their former offsets;
/// `indexes` tells the first entry of each in the handler table by its former offset, and 0 where it has none.
#[tactic(auto, using(crate::proofs::PlaceLaws::one_new))]
pub(crate) fn news(
    alloc: Global,
    start: usize,
    table: &[Option<WrittenMember<'_>>],
    indexes: &[u16],
) -> Result<NewMethods, AllocError>
    requires small { AreSmallBodies table.now }
    requires end { methods_end_from start table.now ≤ 65535 }
    ensures { IfOk result (λ news. news ≡ news_from indexes.now start table.now) }
{
    let mut news = NewMethods::new(alloc);
    let mut at = start;
    'methods: for slot in table {
        match slot {
            Some(member) => {
                news.push(new_method(indexes, at, member))?;
                at += body_size(member.body);
            }
            None => news.skip()?,
        }
    }
    Ok(news)
}

/// The numbers of a method that stands at a place now.
fn new_method(indexes: &[u16], at: usize, member: &WrittenMember<'_>) -> NewMethod
    requires at { at ≤ 65535 }
    requires small { IsSmallBody member.now.body }
    ensures { result ≡ new_method indexes.now at member.now }
{
    let (bytecode_count, handler_count) = match member.body {
        Body::Code(laid) => (laid.code.len() as u16, laid.handlers.len() as u16),
        Body::Header(_) => (0, 0),
    };
    NewMethod {
        offset: at as u16,
        bytecode_count,
        handler_count,
        handler_index: indexes.get(member.offset as usize).copied().unwrap_or(0),
    }
}
