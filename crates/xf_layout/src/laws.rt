ghost use Rattle.xf_layout.specs.Laws.{LaidIsNoLonger, PlainSizesAgree, ShortestIsOne};

use jc_decode::short_is_no_longer;

/// Items have one shortest choice of forms.
pub fn shortest_is_one()
    ensures { ShortestIsOne }
{}

/// In any choice of forms code is no longer than its plain size.
pub fn laid_is_no_longer()
    ensures { LaidIsNoLonger }
{
    short_is_no_longer();
}

/// Code that is laid for symbols in its shortest bytes has the plain size of these.
pub fn plain_sizes_agree()
    ensures { PlainSizesAgree }
{}
