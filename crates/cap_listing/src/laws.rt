ghost use Rattle.cap_listing.specs.Laws.{OneListing, OneBadLine, ListingComesBack, MethodsReplaced};

/// A text is the listing of one list of methods at most.
pub fn one_listing()
    ensures { OneListing }
{}

/// A text goes wrong at one line at most, and a listing at none.
pub fn one_bad_line()
    ensures { OneBadLine }
{}

/// Assembling the listing of a package's methods gives these methods again, with their code and handlers, or there is no
/// memory.
pub fn listing_comes_back()
    ensures { ListingComesBack }
{}

/// A package that is written with listed methods in place of its own has exactly these, with their code, handlers and
/// numbers.
pub fn methods_are_replaced()
    ensures { MethodsReplaced }
{}
