ghost use Rattle.std.specs.Prelude.{◌≡◌, ◌≢◌, Bool, Ok, IsTrue};
ghost use Rattle.base_values.specs.Answers.{Returns};
ghost use Rattle.base_values.specs.declared.EditError.{EditError};
ghost use Rattle.base_values.specs.declared.EditError.TheVariants.{NoMemory};
ghost use Rattle.base_values.specs.declared.Position.{Position};
ghost use Rattle.base_styles.specs.declared.Style.{Style};
ghost use Rattle.sheet_rules.specs.WellFormed.{has_font};

use base_shared::Shared;
use base_styles::Style;
use base_values::{EditError, Position, copy_of};
use sheet_grid::DefaultStyle;

/// A change of styles: what it makes of the style that a place shows. Of a row or a column it is
/// asked at the first place of the line, with the line's own style or the default one.
pub trait StyleChange {
    ghost made_of: { Self → Position → Style → Style };

    ghost takes: { Self → Position → Style → Bool };

    ghost refusal_of: { Self → EditError };

    /// Whether it may be made of a style. It takes no memory.
    fn accepts(&self, place: Position, style: &Style) -> bool
        ensures { result ≡ takes self.now place style.now };

    /// The style after the change. Callers ask only where `accepts` is true; else any style may be
    /// returned. `NoMemory` alone is an error.
    fn style_at(&self, place: Position, style: &Shared<Style>) -> Result<Shared<Style>, EditError>
        ensures { Returns result (Ok (made_of self.now place style.now)) };

    /// The answer where it may not be made of a style. It takes no memory.
    fn refusal(&self) -> EditError
        ensures { result ≡ refusal_of self.now };

    ghost sure: { (change : Self) → refusal_of change ≢ NoMemory };

    /// A font of size 1 or more keeps such a size.
    ghost sized: { (change : Self) (place : Position) (style : Style) → IsTrue (has_font style) → IsTrue (has_font (made_of change place style)) };
}

/// Each place shows the default style then.
impl StyleChange for DefaultStyle {
    ghost use Rattle.std.specs.Prelude.{true, refl};
    ghost use Rattle.base_styles.specs.DefaultStyle.{default_style};
    ghost use Rattle.base_values.specs.declared.EditError.TheVariants.{StyleValue};

    ghost made_of = { λ _ _ _. default_style };

    ghost takes = { λ _ _ _. true };

    ghost refusal_of = { λ _. StyleValue };

    fn accepts(&self, _place: Position, _style: &Style) -> bool {
        true
    }

    fn style_at(
        &self,
        _place: Position,
        _style: &Shared<Style>,
    ) -> Result<Shared<Style>, EditError> {
        copy_of(self.shared())
    }

    fn refusal(&self) -> EditError {
        EditError::StyleValue
    }

    ghost sure = { λ change e. let never : StyleValue ≡ NoMemory = e in Prim.cc };

    ghost sized = { λ change place style h. refl };
}
