use base_shared::Shared;
use base_values::{EditError, Text, copy_of, same};
use std::alloc::Global;
use std::test::Fail;

/// Whether a value is taken out of one of its holders.
fn is_taken(shared: Shared<Text>, text: &Text) -> Result<bool, EditError> {
    let taken = shared.into_value()?;
    Ok(same(&taken, text))
}

/// Whether a text is held by two, and taken out of one after the other.
fn is_held(alloc: Global, text: &Text) -> Result<bool, EditError> {
    let shared = Shared::new(alloc, copy_of(text)?)?;
    let again = copy_of(&shared)?;
    let is_same = same(&again, &shared) && same(shared.get(), text);
    let first = is_taken(shared, text)?;
    let second = is_taken(again, text)?;
    Ok(is_same && first && second)
}

/// Each call once, where there is enough memory.
#[test]
fn with_ample_memory(rt: HostRuntime) -> Result<(), Fail> {
    let text = Text::new(String::from_str(rt.alloc(), "one")?);
    assert!(rt; is_held(rt.alloc(), &text)?);
    Ok(())
}
