// The names of resources.
ghost use Rattle.std.specs.Prelude.{◌≡◌, ◌<◌, false, ◌++◌, map, IfOk, string_bytes, OnOk};
ghost use Rattle.std.specs.Fmt.{digit_glyph};
ghost use Rattle.texts.specs.Texts.{plain, shown, quotation, longest};

use std::alloc::{AllocError, Global};
use tables::resource::Resource;

fn is_plain(byte: u8) -> bool
    ensures { result ≡ plain byte }
{
    matches!(byte, b' '..=b'~') && byte != b'\\'
}

fn hex_digit(nibble: u8) -> char
    requires { nibble < 16 }
    ensures { result ≡ digit_glyph false nibble }
{
    if nibble < 10 {
        char::from(b'0' + nibble)
    } else {
        char::from(b'a' - 10 + nibble)
    }
}

// Digit by digit: put together by `{:02x}`, a byte takes three times as long.
fn push_shown(text: &mut String, byte: u8) -> Result<(), AllocError>
    ensures { OnOk result (string_bytes text.new ≡ string_bytes text.old ++ shown byte) }
{
    if is_plain(byte) {
        return text.push(char::from(byte));
    }
    text.push_str("\\x")?;
    text.push(hex_digit(byte / 16))?;
    text.push(hex_digit(byte % 16))
}

// A name between quotation marks: printable ASCII as it is, a backslash and any other byte as \xNN. It is put together once, as the text that columns are measured by.
pub fn quoted(heap: Global, name: &[u8]) -> Result<String, AllocError>
    ensures { IfOk result (λ s. string_bytes s ≡ quotation name.now) }
{
    let mut text = String::from_str(heap, "\"")?;
    for byte in name {
        push_shown(&mut text, *byte)?;
    }
    text.push('"')?;
    Ok(text)
}

// The names in quotation, one by one, so that it is known of each whose it is.
pub fn names_of(heap: Global, resources: &[Resource]) -> Result<Vec<String>, AllocError>
    ensures { IfOk result (λ v. map string_bytes v.items ≡ map (λ x. quotation x.name) resources.now) }
{
    let mut names = Vec::new(heap);
    for resource in resources {
        names.push(quoted(heap, &resource.name)?)?;
    }
    Ok(names)
}

pub fn widest(texts: &[String]) -> usize
    ensures { result ≡ longest texts.now }
{
    texts.iter().fold(0, |width, text| width.max(text.len()))
}
