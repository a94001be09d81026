ghost use Rattle.cap_load.specs.Laws.{OneList, OneFault, NotBoth, OnePacked, ShortNotLong, PackedIsLoadFile};

/// Bytes are a Load file of at most one list of parts.
pub fn one_list()
    ensures { OneList }
{}

/// Bytes are refused for at most one fault.
pub fn one_fault()
    ensures { OneFault }
{}

/// Bytes that are a Load file within the room are refused for no fault.
pub fn not_both()
    ensures { NotBoth }
{}

/// The components among some parts are packed to at most one list of bytes.
pub fn one_packed()
    ensures { OnePacked }
{}

/// Components of which the Load file is short enough for a part are not too long.
pub fn short_not_long()
    ensures { ShortNotLong }
{}

/// Bytes that `blocks` answers are a Load file of the components that it packed.
pub fn packed_is_load_file()
    ensures { PackedIsLoadFile }
{}
