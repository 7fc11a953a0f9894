use crate::answers::push_error;
use crate::hex::bytes_of;
use base_values::EditError;
use script_dump::{push_hex, push_line};
use std::alloc::Global;
use user_model::{ClearAll, UserModel};

type Model = UserModel<ClearAll>;

/// Answers `to_bytes` with the bytes of the model's workbook.
pub(crate) fn push_saved(out: &mut Vec<u8>, model: &Model) -> Result<(), EditError> {
    let bytes = model.to_bytes()?;
    push_hex(out, &bytes)?;
    Ok(out.push(b'\n')?)
}

fn push_opened(
    alloc: Global,
    out: &mut Vec<u8>,
    language: &str,
    bytes: &[u8],
) -> Result<(), EditError> {
    match UserModel::from_bytes(alloc, bytes, language, ClearAll) {
        Ok(model) => push_saved(out, &model),
        Err(error) => push_error(alloc, out, error),
    }
}

/// Answers `from_bytes LANGUAGE BYTES` with the bytes of the workbook that is opened.
pub(crate) fn answer_opened(alloc: Global, out: &mut Vec<u8>, text: &str) -> Result<(), EditError> {
    let (language, hex) = text.split_once(' ').unwrap_or((text, ""));
    match bytes_of(alloc, hex)? {
        Some(bytes) => push_opened(alloc, out, language, &bytes),
        None => Ok(push_line(out, b"no bytes")?),
    }
}
