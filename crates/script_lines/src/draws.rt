ghost use Rattle.std.specs.Prelude.{◌≡◌, ◌<◌, ◌≤◌, IfOk, IsOkUnless};
ghost use Rattle.base_values.specs.declared.EditError.TheVariants.{NoMemory};
ghost use Rattle.script_lines.specs.Draws as spec;

use crate::command::{Command, NamedCell, NamedLines};
use base_values::{EditError, Text};
use std::alloc::{AllocError, Global};

/// The seed that a draw leaves.
#[tactic(auto, unfolding(crate::specs::Draws::next_seed))]
fn next_seed(seed: u64) -> u64
    ensures { result ≡ spec.next_seed seed }
{
    let next = u128::from(seed) * 6364136223846793005 + 1442695040888963407;
    (next % 0x1_0000_0000_0000_0000) as u64
}

/// What a draw gives, below a limit.
#[tactic(auto, unfolding(crate::specs::Draws::draw))]
fn draw(seed: u64, limit: u64) -> u64
    requires { 1 ≤ limit }
    ensures value { result ≡ spec.draw limit seed }
    ensures below { result < limit }
{
    next_seed(seed) / 0x2_0000_0000 % limit
}

/// A line from 1 to a last one.
fn drawn_line(seed: u64, last: u64) -> i32
    requires low { 1 ≤ last }
    requires high { last ≤ 50 }
    ensures { result ≡ spec.drawn_line last seed }
{
    1 + draw(seed, last) as i32
}

fn drawn_cell(seed: u64) -> NamedCell
    ensures { result ≡ spec.drawn_cell seed }
{
    let column = drawn_line(seed, 20);
    let row = drawn_line(next_seed(seed), 50);
    NamedCell {
        sheet: 0,
        row,
        column,
    }
}

fn drawn_row(seed: u64) -> NamedLines
    ensures { result ≡ spec.drawn_row seed }
{
    NamedLines {
        sheet: 0,
        first: drawn_line(seed, 50),
        count: 1,
    }
}

fn drawn_number(alloc: Global, seed: u64) -> Result<Text, AllocError>
    ensures { IfOk result (λ text. text ≡ spec.drawn_number seed) }
{
    Ok(Text::new(draw(seed, 1000).to_string(alloc)?))
}

fn drawn_formula(alloc: Global, seed: u64) -> Result<Text, AllocError>
    ensures { IfOk result (λ text. text ≡ spec.drawn_formula seed) }
{
    let mut text = "=A".to_string(alloc)?;
    text.push_str((1 + draw(seed, 50)).to_string(alloc)?.as_str())?;
    text.push_str("+$B$")?;
    text.push_str((1 + draw(next_seed(seed), 50)).to_string(alloc)?.as_str())?;
    Ok(Text::new(text))
}

/// The command of a kind, and the seed that its draws leave.
#[tactic(auto, unfolding(crate::specs::Draws::drawn_by))]
fn drawn_by(alloc: Global, kind: u64, seed: u64) -> Result<(Command, u64), AllocError>
    ensures { IfOk result (λ drawn. drawn ≡ spec.drawn_by kind seed) }
{
    let second = next_seed(seed);
    match kind {
        0 | 1 | 2 => {
            let third = next_seed(second);
            let text = drawn_number(alloc, third)?;
            Ok((Command::Set(drawn_cell(seed), text), next_seed(third)))
        }
        3 => {
            let third = next_seed(second);
            let text = drawn_formula(alloc, third)?;
            Ok((
                Command::Set(drawn_cell(seed), text),
                next_seed(next_seed(third)),
            ))
        }
        4 => Ok((Command::InsertRows(drawn_row(seed)), second)),
        5 => Ok((Command::DeleteRows(drawn_row(seed)), second)),
        6 => Ok((Command::Undo, seed)),
        _ if draw(seed, 2) == 0 => Ok((Command::Redo, second)),
        _ => Ok((Command::Sync, second)),
    }
}

/// The command that is drawn from a seed, and the seed that its draws leave. The only error is
/// `NoMemory`.
pub fn drawn_command(alloc: Global, seed: u64) -> Result<(Command, u64), EditError>
    ensures value { IfOk result (λ drawn. drawn ≡ spec.drawn_command seed) }
    ensures only { IsOkUnless result NoMemory }
{
    let kind = draw(seed, 8);
    Ok(drawn_by(alloc, kind, next_seed(seed))?)
}
