ghost use Rattle.std.specs.Prelude.{◌≡◌};
ghost use Rattle.formula_tree.specs.OnSheet.{is_on_sheet};

use base_shared::Shared;
use base_tables::same_by_folding;
use base_values::Text;

/// Whether a reference or range with this sheet name, in a formula of the sheet `own`, stands on
/// the sheet `sheet`. One without a name stands on the formula's own sheet. Names are compared by
/// simple case folding.
#[tactic(auto, unfolding(crate::specs::OnSheet::is_on_sheet))]
pub fn is_on_sheet(own: &str, sheet: &str, name: &Option<Shared<Text>>) -> bool
    ensures { result ≡ is_on_sheet own.now sheet.now name.now }
{
    match name {
        Some(name) => same_by_folding(name.get().as_str(), sheet),
        None => same_by_folding(own, sheet),
    }
}
