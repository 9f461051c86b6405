// The text of a boot text's refusal: its first wrong line and the cause by its name.
ghost use Rattle.std.specs.Prelude.{◌≡◌, IfOk};
ghost use Rattle.paprvio.specs.Texts.{cause_name, refused_text};

use boot_text::Cause;
use std::alloc::Global;
use vio_num::NoMemory;

// Names a cause.
fn cause_name(cause: Cause) -> &'static [u8]
    ensures { result.now ≡ cause_name cause }
{
    match cause {
        Cause::TooLong => b"TooLong",
        Cause::BadByte => b"BadByte",
        Cause::LineLength => b"LineLength",
        Cause::Header => b"Header",
        Cause::Word => b"Word",
        Cause::Place => b"Place",
        Cause::Count => b"Count",
        Cause::Number => b"Number",
        Cause::Limit => b"Limit",
        Cause::Link => b"Link",
        Cause::Unit => b"Unit",
        Cause::Transfer => b"Transfer",
    }
}

/// The text that tells the first wrong line, from 1, and its first cause.
pub fn refused_text(alloc: Global, line: u32, cause: Cause) -> Result<Vec<u8>, NoMemory>
    ensures { IfOk result (λ text. text.items ≡ refused_text line cause) }
{
    let mut decimal = itoa::Buffer::new();
    let mut text = Vec::from_slice(alloc, b"paprvio: line ")?;
    text.extend_from_slice(decimal.format(line).as_bytes())?;
    text.extend_from_slice(b": ")?;
    text.extend_from_slice(cause_name(cause))?;
    text.extend_from_slice(b"\n")?;
    Ok(text)
}
