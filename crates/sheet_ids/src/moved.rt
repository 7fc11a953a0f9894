ghost use Rattle.std.specs.Prelude.{◌≡◌};
ghost use Rattle.sheet_ids.specs.Moved.{without, selected_sheet_after_move};

/// The index of a sheet after another one, at `from`, was taken out.
fn without(selected: u32, from: u32) -> u32
    ensures { result ≡ without selected from }
{
    if selected > from {
        selected - 1
    } else {
        selected
    }
}

/// The index of the selected sheet after the sheet at `from` was taken to exactly the index `to`: the
/// sheet that was selected stays so.
pub fn selected_sheet_after_move(selected: u32, from: u32, to: u32) -> u32
    ensures { result ≡ selected_sheet_after_move selected from to }
{
    if selected == from {
        return to;
    }
    let rest = without(selected, from);
    if rest >= to { rest + 1 } else { rest }
}
