ghost use Rattle.std.specs.Prelude.{◌≡◌, ◌≤◌, ◌<◌, IfSome, Some, length, slice_get};
ghost use Rattle.cap_method.specs.MethodPart.{handlers_left};
ghost use Rattle.cap_pool.specs.Pool.{entries};
ghost use Rattle.jc_base.specs.Class.{IsClass, throwable};
ghost use Rattle.jc_resolve.specs.Numbering.{numbered_classes};
ghost use Rattle.jc_resolve.specs.Fault.{link_place};
ghost use Rattle.first_fault.specs.Least.{least_from, least_of, refused};
ghost use Rattle.jc_link.specs.Catches.{class_caught_by, thrown_by, catches_throwable, handlers_from, handler_places, catch_fault};

use cap_method::{HandlerEntries, HandlerInfo};
use cap_pool::{Pool, PoolReference};
use jc_base::{Classes, Ty, below};
use jc_resolve::{LinkFault, Names, lesser, refuse};

/// A class below throwable.
fn is_thrown(classes: &Classes, class: u16) -> bool
    requires known { class < length classes.now.records }
    requires throwable { IsClass classes.now (throwable classes.now) }
    ensures { result ≡ thrown_by classes.now (Some class) }
{
    let _ = classes.records();
    if classes.is_interface(class) {
        return false;
    }
    below(classes, Ty::Class(class), Ty::Class(classes.role(1)))
}

/// The class or interface that an entry names, if it is a Classref.
fn caught_by(names: &Names<'_, '_, '_>, package: u16, pool: &Pool<'_>, index: u16) -> Option<u16>
    ensures is { result ≡ class_caught_by names.now.packages «package» (slice_get (entries pool.now) index) }
    ensures below { IfSome result (λ c. c < length (numbered_classes names.now.packages)) }
{
    match pool.at(index)?.reference() {
        PoolReference::Class(class) => names.class_referred(package, class),
        _ => None,
    }
}

/// Whether a handler of a package catches all, or a class below throwable.
#[tactic(auto, unfolding(crate::specs::Catches::catches_throwable))]
fn catches(
    names: &Names<'_, '_, '_>,
    classes: &Classes,
    package: u16,
    pool: &Pool<'_>,
    index: u16,
) -> bool
    requires count { length classes.now.records ≡ length (numbered_classes names.now.packages) }
    requires throwable { IsClass classes.now (throwable classes.now) }
    ensures { result ≡ catches_throwable names.now.packages classes.now «package» (entries pool.now) index }
{
    if index == 0 {
        return true;
    }
    match caught_by(names, package, pool, index) {
        Some(class) => is_thrown(classes, class),
        None => false,
    }
}

/// What is wrong with a handler of a package.
#[tactic(auto, unfolding(crate::specs::Catches::catch_fault))]
fn catch_fault(
    names: &Names<'_, '_, '_>,
    classes: &Classes,
    package: u16,
    pool: &Pool<'_>,
    number: u16,
    handler: HandlerInfo,
) -> Option<LinkFault>
    requires count { length classes.now.records ≡ length (numbered_classes names.now.packages) }
    requires throwable { IsClass classes.now (throwable classes.now) }
    ensures { result
        ≡ catch_fault names.now.packages classes.now
        (record
        { home = «package»; pool = entries pool.now; number = number; handler = handler }) }
{
    if catches(names, classes, package, pool, handler.index) {
        None
    } else {
        Some(LinkFault::BadCatch(package, number))
    }
}

/// The least fault so far, when the handlers of a package were looked at.
fn handlers_catch(
    names: &Names<'_, '_, '_>,
    classes: &Classes,
    package: u16,
    pool: &Pool<'_>,
    handlers: HandlerEntries<'_>,
    least: Option<LinkFault>,
) -> Option<LinkFault>
    requires count { length classes.now.records ≡ length (numbered_classes names.now.packages) }
    requires throwable { IsClass classes.now (throwable classes.now) }
    requires few { length (handlers_left handlers) ≤ 255 }
    ensures { result
        ≡ least_from link_place least
        (catch_fault names.now.packages classes.now)
        (handlers_from «package» (entries pool.now) 0 (handlers_left handlers.entry)) }
{
    let mut least = least;
    let mut number: u16 = 0;
    'handlers: for handler in handlers {
        let fault = catch_fault(names, classes, package, pool, number, handler);
        least = lesser(least, fault);
        number += 1;
    }
    least
}

/// Each handler catches all, or a class below throwable.
#[tactic(auto, using(crate::proofs::Leasts::least_handlers))]
pub fn handlers_fit(names: &Names<'_, '_, '_>, classes: &Classes) -> Result<(), LinkFault>
    requires count { length classes.now.records ≡ length names.now.classes }
    requires throwable { IsClass classes.now (throwable classes.now) }
    ensures { result ≡ refused (least_of link_place (catch_fault names.now.packages classes.now) (handler_places names.now.packages)) }
{
    names.facts();
    let mut least = None;
    'packages: for (k, package) in names.packages().iter().enumerate() {
        let handlers = package.methods().handlers();
        least = handlers_catch(names, classes, k as u16, &package.pool(), handlers, least);
    }
    refuse(least)
}
