use base_values::Exact;

/// An item of a list that each sheet has: the id of a sheet, and an index in its list. They are
/// ordered by sheet, then by index.
#[derive(Clone, Copy, Debug, PartialEq, Eq, PartialOrd, Ord)]
pub struct SheetIndex {
    /// The id of the sheet.
    pub sheet: u32,
    /// The index in that sheet's list.
    pub index: u64,
}

impl Exact for SheetIndex {
    ghost use Rattle.std.proofs.Common.{rules};
    ghost use Rattle.base_maps.specs.laws.SheetIndexEquals.{sheet_index_equals};

    ghost copies = { λ a b h. Prim.search rules };

    ghost equals = { sheet_index_equals };
}
