ghost use Rattle.std.specs.Prelude.{◌≡◌, MatchOption, MatchResult, false, true};
ghost use Rattle.core_isa.specs.Lines.{is_name, begins_name, continues_name, is_white};
ghost use Rattle.std.specs.List.{list_all};
ghost use Rattle.std.specs.Str.{all_ascii_digits};
ghost use Rattle.core_isa.specs.Operands.{is_register, register_value, is_number, is_digits, number_value};
ghost use Rattle.core_isa.specs.declared.fault.AsmKind.TheVariants.{Register, Number};

use crate::AsmKind;

/// A space, a tab or a carriage return.
#[tactic(auto, unfolding(crate::specs::Lines::is_white))]
pub(crate) fn is_white_byte(byte: u8) -> bool
    ensures { result ≡ is_white byte }
{
    byte == b' ' || byte == b'\t' || byte == b'\r'
}

/// Whether the word is a name: a letter or `_`, and then letters, digits or `_`.
pub(crate) fn is_label_name(word: &[u8]) -> bool
    ensures { result ≡ is_name word.now }
{
    match word {
        [] => false,
        [first, rest @ ..] => is_name_begin(*first) && are_name_parts(rest),
    }
}

fn is_name_begin(byte: u8) -> bool
    ensures { result ≡ begins_name byte }
{
    byte.is_ascii_alphabetic() || byte == b'_'
}

fn is_name_part(byte: u8) -> bool
    ensures { result ≡ continues_name byte }
{
    is_name_begin(byte) || byte.is_ascii_digit()
}

fn are_name_parts(bytes: &[u8]) -> bool
    ensures { result ≡ list_all continues_name bytes.now }
{
    bytes.iter().all(|byte| is_name_part(*byte))
}

/// The register that the word is.
pub(crate) fn register(word: &[u8]) -> Result<u8, AsmKind>
    ensures { MatchResult result
        (λ r. (is_register word.now ≡ true) × (r ≡ register_value word.now))
        (λ kind. (is_register word.now ≡ false) × (kind ≡ Register)) }
{
    match word {
        [b'r', digit @ b'0'..=b'7'] => Ok(*digit - b'0'),
        _ => Err(AsmKind::Register),
    }
}

/// The number that the word is.
pub(crate) fn number(word: &[u8]) -> Result<u32, AsmKind>
    ensures { MatchResult result
        (λ n. (is_number word.now ≡ true) × (n ≡ number_value word.now))
        (λ kind. (is_number word.now ≡ false) × (kind ≡ Number)) }
{
    let Some(digits) = digits(word) else {
        return Err(AsmKind::Number);
    };
    let Ok(number) = digits.parse() else {
        return Err(AsmKind::Number);
    };
    Ok(number)
}

/// The word as digits, of which there is at least one.
pub(crate) fn digits(word: &[u8]) -> Option<&str>
    ensures { MatchOption result (is_digits word.now ≡ false)
        (λ text. (is_digits word.now ≡ true) × (text.now ≡ word.now)) }
{
    if word.is_empty() || !are_digits(word) {
        return None;
    }
    str::from_utf8(word).ok()
}

fn are_digits(bytes: &[u8]) -> bool
    ensures { result ≡ all_ascii_digits bytes.now }
{
    bytes.iter().all(|byte| byte.is_ascii_digit())
}
