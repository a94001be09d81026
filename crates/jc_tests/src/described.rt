ghost use Rattle.std.specs.Prelude.{◌≡◌, [], false, IfOk};
ghost use Rattle.jc_tests.specs.TwoPackages.{instance_method};

use jc_base::*;
use std::alloc::{AllocError, Global};

pub(crate) fn list<T: Copy>(alloc: Global, items: &[T]) -> Result<Items<T>, AllocError>
    ensures { IfOk result (λ l. l ≡ items.now) }
{
    Ok(Items::of(Vec::from_slice(alloc, items)?))
}

/// A class that implements no interface.
pub(crate) fn class(
    alloc: Global,
    package: u16,
    parent: Option<u16>,
    cells: u16,
    own: &[Ty],
    public: &[u16],
    visible: &[u16],
) -> Result<ClassRec, AllocError>
    ensures { IfOk result
        (λ r.
        r
        ≡ record {
          «package» = «package»;
          interface = false;
          parent = parent;
          cells = cells;
          own = own.now;
          implements = [];
          public = public.now;
          visible = visible.now;
        }) }
{
    Ok(ClassRec {
        package,
        interface: false,
        parent,
        cells,
        own: list(alloc, own)?,
        implements: Items::of(Vec::new(alloc)),
        public: list(alloc, public)?,
        visible: list(alloc, visible)?,
    })
}

/// A method that takes a short and gives one, with two bytes of code.
pub(crate) fn instance_method(
    alloc: Global,
    package: u16,
    class: u16,
    token: u8,
    class_no: u16,
    method_no: u16,
    code_at: u16,
) -> Result<MethodRec, AllocError>
    ensures { IfOk result (λ m. m ≡ instance_method «package» class token class_no method_no code_at) }
{
    Ok(MethodRec {
        package,
        class,
        token,
        class_no,
        method_no,
        is_static: false,
        is_init: false,
        is_abstract: false,
        sig: Sig {
            args: list(alloc, &[Ty::Short])?,
            result: Some(Ty::Short),
        },
        nargs: 2,
        max_locals: 1,
        max_stack: 2,
        code_at,
        code_len: 2,
        handlers: list(alloc, &[])?,
    })
}
