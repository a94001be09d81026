ghost use Rattle.jc_decode.specs.Laws.{BytesReadBack, InstructionsAreListed, LabelsStandBetween, ListingIsOne, NothingPastTheEnd, ShortIsNoLonger, TargetsAreFew};

use cap_bytes::are_bytes;

/// The bytes of an instruction are decoded to it wherever they stand, and of a switch its cases too.
pub fn bytes_read_back(bytes: &[u8])
    ensures { BytesReadBack bytes.now }
{
    are_bytes(bytes);
}

/// A code has one listing, which is found instruction by instruction.
pub fn listing_is_one()
    ensures { ListingIsOne }
{}

/// In any code the instructions stand one after the other, and each is the one that is decoded at its place.
pub fn instructions_are_listed()
    ensures { InstructionsAreListed }
{}

/// An instruction has at most one target more than the code has bytes.
pub fn targets_are_few()
    ensures { TargetsAreFew }
{}

/// A label stands between instructions: for the number of those before it.
pub fn labels_stand_between()
    ensures { LabelsStandBetween }
{}

/// After the end of a code nothing is decoded.
pub fn nothing_past_the_end()
    ensures { NothingPastTheEnd }
{}

/// The short form of an instruction is no longer than its plain length.
pub fn short_is_no_longer()
    ensures { ShortIsNoLonger }
{}
