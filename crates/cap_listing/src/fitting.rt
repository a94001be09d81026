ghost use Rattle.std.specs.Prelude.{◌≡◌};
ghost use Rattle.cap_listing.specs.Placing.{is_same, lies_in, other_faults, range_faults, own_faults, faults_from, total_faults, faults};
ghost use Rattle.cap_listing.specs.Placing.{first_refused};

use crate::fault::AsmFault;
use crate::method::ListedMethod;
use jc_decode::LaidHandler;

/// What is asked of each method that is put into a package.
#[derive(Clone, Copy)]
pub enum Condition {
    /// Arguments and locals are at most 255 words together.
    Registers,
    /// The range of each handler ends in the code or at its end, and its entry is in the code.
    Handlers,
    /// The code has 1 to 32,767 bytes.
    Length,
}

/// Whether two methods have the same numbers and as many argument words.
fn is_same(method: &ListedMethod, own: &ListedMethod) -> bool
    ensures { result ≡ is_same method.now own.now }
{
    method.class_no == own.class_no
        && method.method_no == own.method_no
        && method.laid.nargs == own.laid.nargs
}

/// Refuses the first method that is not the package's own of its number.
fn check_others(methods: &[ListedMethod], owns: &[ListedMethod]) -> Result<(), AsmFault>
    ensures { result ≡ first_refused (other_faults 0 methods.now owns.now) }
{
    let both = methods.len().min(owns.len());
    'methods: for n in 0..both {
        if !is_same(&methods[n], &owns[n]) {
            return Err(AsmFault::OtherMethod(n));
        }
    }
    if methods.len() == owns.len() {
        Ok(())
    } else {
        Err(AsmFault::OtherMethod(both))
    }
}

/// Whether a handler's range and entry lie in a code of this size.
fn lies_in(handler: LaidHandler, size: usize) -> bool
    ensures { result ≡ lies_in handler size }
{
    let end = handler.start as usize + handler.length as usize;
    end <= size && (handler.entry as usize) < size
}

/// Refuses the first handler of the n-th method that does not lie in a code of this size.
fn check_handlers(n: usize, size: usize, handlers: &[LaidHandler]) -> Result<(), AsmFault>
    ensures { result ≡ first_refused (range_faults n size 0 handlers.now) }
{
    'handlers: for number in 0..handlers.len() {
        if !lies_in(handlers[number], size) {
            return Err(AsmFault::HandlerRange(n, number));
        }
    }
    Ok(())
}

/// Refuses the n-th method where it does not meet a condition.
fn check_one(condition: Condition, n: usize, method: &ListedMethod) -> Result<(), AsmFault>
    ensures { result ≡ first_refused (own_faults condition n method.now) }
{
    let size = method.laid.code.len();
    let count = u16::from(method.laid.nargs) + u16::from(method.laid.max_locals);
    match condition {
        Condition::Registers if count > 255 => Err(AsmFault::Registers(n, count)),
        Condition::Handlers => check_handlers(n, size, method.laid.handlers.as_slice()),
        Condition::Length if size == 0 || size > 32767 => Err(AsmFault::CodeLength(n, size)),
        _ => Ok(()),
    }
}

/// Refuses the first method that does not meet a condition.
fn check_each(condition: Condition, methods: &[ListedMethod]) -> Result<(), AsmFault>
    ensures { result ≡ first_refused (faults_from condition 0 methods.now) }
{
    'methods: for n in 0..methods.len() {
        check_one(condition, n, &methods[n])?;
    }
    Ok(())
}

/// Refuses methods of more than 255 handlers together.
fn check_total(methods: &[ListedMethod]) -> Result<(), AsmFault>
    ensures { result ≡ first_refused (total_faults methods.now) }
{
    let mut count: usize = 0;
    'methods: for method in methods {
        count = count.saturating_add(method.laid.handlers.len());
    }
    if count > 255 {
        return Err(AsmFault::TooManyHandlers(count));
    }
    Ok(())
}

/// Refuses methods that do not fit in place of a package's own: by the first condition that is broken, and of that the
/// first method.
pub(crate) fn check(methods: &[ListedMethod], owns: &[ListedMethod]) -> Result<(), AsmFault>
    ensures { result ≡ first_refused (faults owns.now methods.now) }
{
    check_others(methods, owns)?;
    check_each(Condition::Registers, methods)?;
    check_each(Condition::Handlers, methods)?;
    check_each(Condition::Length, methods)?;
    check_total(methods)
}
