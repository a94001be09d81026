ghost use Rattle.std.specs.Prelude.{◌≡◌};
ghost use Rattle.cap_listing.specs.Text.{heading_of};

use jc_decode::{Laid, Sequence};

/// A method of a listing: its code and handlers, with the numbers by which it is named.
#[derive(Drop)]
pub struct ListedMethod {
    /// The number of its class in the Descriptor, from 0.
    pub class_no: u16,
    /// Its own number in the class, from 0.
    pub method_no: u16,
    pub laid: Laid,
}

/// The methods of a listing.
pub type Listed = Sequence<ListedMethod>;

/// The numbers of a method.
#[derive(Clone, Copy)]
pub struct Heading {
    pub(crate) class_no: u16,
    pub(crate) method_no: u16,
    pub(crate) max_stack: u8,
    pub(crate) nargs: u8,
    pub(crate) max_locals: u8,
}

impl ListedMethod {
    pub(crate) fn heading(&self) -> Heading
        ensures { result ≡ heading_of self.now }
    {
        Heading {
            class_no: self.class_no,
            method_no: self.method_no,
            max_stack: self.laid.max_stack,
            nargs: self.laid.nargs,
            max_locals: self.laid.max_locals,
        }
    }
}
