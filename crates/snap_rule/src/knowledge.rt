//! What loaded words tell of the tree, and what a clone reads.

ghost use Rattle.snap_rule.specs.Laws.Knowledge.{AbsentBelow, AbsentHere, CutImage, FindAt, ImageKept, LiveKnown, ReplacedOnce, TreePairs};

/// Birth and stamp, loaded in a write, make a row live.
pub fn live_known()
    ensures { LiveKnown }
{}

/// A live row without a value: its key is absent.
pub fn absent_here()
    ensures { AbsentHere }
{}

/// A link of 0 at a place: the key of the place is absent.
pub fn absent_below()
    ensures { AbsentBelow }
{}

/// A search through an ordered tree finds what its pairs have.
pub fn find_at()
    ensures { FindAt }
{}

/// The pairs of the tree are the map after the history.
pub fn tree_pairs()
    ensures { TreePairs }
{}

/// What a cut shares is the tree, read from its root.
pub fn cut_image()
    ensures { CutImage }
{}

/// The image of a shared row stays as it is.
pub fn image_kept()
    ensures { ImageKept }
{}

/// What a copy replaced stands in the tree no more, so no row is replaced twice.
pub fn replaced_once()
    ensures { ReplacedOnce }
{}
