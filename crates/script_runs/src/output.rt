ghost use Rattle.std.specs.Prelude.{◌≡◌, OnOk, IfOk, IsOkUnless};
ghost use Rattle.base_values.specs.declared.EditError.TheVariants.{NoMemory};
ghost use Rattle.script_runs.specs.Script.{commands_of, lines_of, output_of, start};
ghost use Rattle.script_runs.specs.Session.{SoundThrough};

use crate::session::Session;
use base_values::EditError;
use script_dump::{push_dump, push_line};
use std::alloc::Global;

/// All that a script writes. The only error is `NoMemory`.
pub(crate) fn output_text(alloc: Global, script: &[u8]) -> Result<Vec<u8>, EditError>
    ensures text { IfOk result (λ text. text.items ≡ output_of script.now) }
    ensures only { IsOkUnless result NoMemory }
    ensures sound { OnOk result (SoundThrough (commands_of (lines_of script.now)) start) }
{
    let mut session = Session::new(alloc)?;
    session.run_lines(script)?;
    push_line(&mut session.out, b"copy")?;
    push_dump(alloc, &mut session.out, session.copy.get_model())?;
    let Session {
        alloc: _,
        model: _,
        copy: _,
        out,
    } = session;
    Ok(out)
}
