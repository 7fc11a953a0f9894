ghost use Rattle.std.specs.Prelude.{◌≡◌, Ok};
ghost use Rattle.base_values.specs.Answers.{Returns};
ghost use Rattle.base_styles.specs.DefaultStyle.{default_style};

use base_shared::Shared;
use base_styles::Style;
use base_values::EditError;
use std::alloc::Global;
use std::marker::Model;

/// The default style, made once for all the cells that have it.
#[derive(Drop)]
pub struct DefaultStyle {
    shared: Shared<Style>,
}

impl Model for DefaultStyle {
    ghost use Rattle.std.specs.Prelude.{◌≡◌};
    ghost use Rattle.std.specs.Coded.{codes};
    ghost use Rattle.base_styles.specs.declared.Style.{Style};
    ghost use Rattle.base_styles.specs.DefaultStyle.{default_style};

    ghost Value = { Style };

    ghost coded = { Prim.hlevel codes };

    ghost view = { λ s. s.shared };

    ghost invariant = { λ s. s.shared ≡ default_style };
}

impl DefaultStyle {
    /// The default style. `NoMemory` alone is an error.
    pub fn new(alloc: Global) -> Result<DefaultStyle, EditError>
        ensures { Returns result (Ok default_style) }
    {
        let shared = Shared::new(alloc, Style::new(alloc)?)?;
        Ok(DefaultStyle { shared })
    }

    /// Lends the style, so that a cell can share it.
    pub fn shared(&self) -> &Shared<Style>
        ensures { result.now ≡ default_style }
    {
        &self.shared
    }
}
