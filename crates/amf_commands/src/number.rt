ghost use Rattle.std.specs.Prelude.{◌≡◌, ◌≤◌, IfSome};
ghost use Rattle.std.specs.List.{list_all};
ghost use Rattle.amf_commands.specs.Commands.{is_digit as digit, number_named};

/// The number that 1 to 10 decimal digits name, where it is from `least` to `most`.
pub fn number_in(text: &str, least: u32, most: u32) -> Option<u32>
    ensures named { result ≡ number_named least most text.now }
    ensures within { IfSome result (λ n. n ≤ most) }
{
    if text.is_empty() || text.len() > 10 || !are_digits(text.as_bytes()) {
        return None;
    }
    match text.parse::<u64>() {
        Ok(number) if u64::from(least) <= number && number <= u64::from(most) => {
            match u32::try_from(number) {
                Ok(number) => Some(number),
                Err(_) => None,
            }
        }
        _ => None,
    }
}

fn are_digits(bytes: &[u8]) -> bool
    ensures { result ≡ list_all digit bytes.now }
{
    for byte in bytes {
        if *byte < b'0' || b'9' < *byte {
            return false;
        }
    }
    true
}
