//! Laws of stamps and of the layout: the contract of a function without a body is the law.
ghost use Rattle.snap_stamp.specs.Stamps.{HaveParts};
ghost use Rattle.snap_stamp.specs.Layout.{FieldsDiffer, RowsFit};

/// A stamp is its count and its two marks, and nothing else.
pub fn stamps_have_parts()
    ensures { HaveParts }
{}

/// Two fields that stand at the same word are the same field of the same row.
pub fn fields_differ()
    ensures { FieldsDiffer }
{}

/// Each field of each row stands behind the header and within the table's words.
pub fn rows_fit()
    ensures { RowsFit }
{}
